// The writers: command messages, answers, and answers with an error code of the MCU's. Each is code, count and data, as a frame is.
ghost use Rattle.std.specs.Prelude.{◌≡◌, true, None};
ghost use Rattle.words.specs.Contract.{Is};
ghost use Rattle.model.specs.Messages.{carries, payload as payload_of, WritesCommand, WritesAnswer, WritesError};
ghost use Rattle.frames.specs.Putting.{put_framed};

use super::rows;
use model::{Contents, Message, Refusal};

// A command message, with its data.
pub fn write_command(message: Message, payload: &[u8], out: &mut [u8]) -> Result<usize, Refusal>
    ensures { WritesCommand message payload.now out.old result out.new }
{
    let row = rows::row_of(message);
    if payload.len() != row.count {
        return Err(Refusal::Invalid);
    }
    frames::put_framed(
        Some(rows::family_byte(row.family)),
        row.code,
        b"",
        payload,
        out,
    )
}

// What an answer carries, behind its code and its count: tags stand behind their number.
fn put_answer(
    response: u8,
    contents: Contents,
    bytes: &[u8],
    out: &mut [u8],
) -> Result<usize, Refusal>
    requires { carries contents bytes.now ≡ true }
    ensures { Is (put_framed None response (payload_of contents bytes.now) out.old) result out.new }
{
    match contents {
        Contents::Tags => {
            let number = [(bytes.len() / rows::TAG_SIZE) as u8];
            frames::put_framed(None, response, &number, bytes, out)
        }
        _ => frames::put_framed(None, response, b"", bytes, out),
    }
}

// The answer to a command, by what it carries.
pub fn write_answer(message: Message, bytes: &[u8], out: &mut [u8]) -> Result<usize, Refusal>
    ensures { WritesAnswer message bytes.now out.old result out.new }
{
    let row = rows::row_of(message);
    if !rows::is_carried(row.contents, bytes) {
        return Err(Refusal::Invalid);
    }
    put_answer(row.response, row.contents, bytes, out)
}

// The answer to any command with an error code of the MCU's.
pub fn write_error(code: u8, out: &mut [u8]) -> Result<usize, Refusal>
    ensures { WritesError code out.old result out.new }
{
    if !rows::is_error(code) {
        return Err(Refusal::Invalid);
    }
    frames::put_framed(None, code, b"", b"", out)
}
