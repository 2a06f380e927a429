// Calls on the demo board's messages: what each writes to as much of the output as is lent, and what it answers, as text.

#![tactic(auto)]

ghost use Rattle.std.specs.Prelude.{ℕ, ◌≡◌, List, [], ◌∷◌};
ghost use Rattle.words.specs.Words.{within};
ghost use Rattle.words.specs.Contract.{Is, on_front};
ghost use Rattle.model.specs.Messages.{named, read_message};
ghost use Rattle.lines.specs.Lines.{rest, byte_at};
ghost use Rattle.text.specs.Adding.{Adds};
ghost use Rattle.board.specs.Board.{answer_to, wrote, written_text, command_text, tells, level_text, contents_text, error_text, read_text, reply_text, spoken_text};

use calls::Board;
use messages::{reading, rows, writing};
use model::{AnswerError, Contents, Message, Refusal};
use text::Text;
use words::Part;

// An answer to the command whose code comes first.
fn write_answer(given: &[u8], out: &mut [u8]) -> Result<usize, Refusal>
    ensures { Is (answer_to (named (byte_at given.now 0)) (rest given.now 1) out.old) result out.new }
{
    match rows::message_of(lines::at(given, 0)) {
        Some(message) => writing::write_answer(message, lines::after(given, 1), out),
        None => Err(Refusal::Invalid),
    }
}

// What a call writes.
fn write(call: Board, given: &[u8], out: &mut [u8]) -> Result<usize, Refusal>
    ensures { Is (wrote call given.now out.old) result out.new }
{
    match call {
        Board::Asks(message) => writing::write_command(message, given, out),
        Board::Answers => write_answer(given, out),
        Board::Fails => writing::write_error(lines::at(given, 0), out),
        Board::Reads | Board::Replies => Ok(0),
    }
}

// On the first n bytes of the output.
#[tactic(auto, using(std::proofs::lemmas::List::take_min, std::proofs::lemmas::List::drop_min))]
fn write_on(call: Board, given: &[u8], out: &mut [u8], n: usize) -> Result<usize, Refusal>
    ensures { Is (on_front n out.old (λ front. wrote call given.now front)) result out.new }
{
    let n = n.min(out.len());
    write(call, given, &mut out[..n])
}

// The bytes that were written, or why none were.
fn put_written(text: &mut Text, written: Result<usize, Refusal>, out: &[u8])
    ensures { Adds text.old (written_text written out.now) text.new }
{
    match written {
        Ok(count) => {
            text.put(b"bytes");
            text.put_bytes(lines::front(out, count));
        }
        Err(refusal) => refusals::put_refusal(text, refusal),
    }
}

// The bytes that a part names.
fn part_of(bytes: &[u8], part: Part) -> &[u8]
    ensures { result.now ≡ within bytes.now part }
{
    lines::front(lines::after(bytes, part.start), part.count)
}

// The call that writes a command message.
fn put_command(text: &mut Text, given: &[u8])
    ensures { Adds text.old (command_text given.now (read_message given.now)) text.new }
{
    match reading::read_command(given) {
        Some((message, payload)) => {
            calls::put_message(text, message);
            text.put_bytes(part_of(given, payload));
        }
        None => refusals::put_refused(text, 5),
    }
}

// What an answer tells.
fn put_name(text: &mut Text, message: Message)
    ensures { Adds text.old (tells message ∷ []) text.new }
{
    match message {
        Message::Idn => text.put(b"name"),
        Message::GetFirmwareVersion => text.put(b"firmware"),
        Message::Inventory => text.put(b"inventory"),
        Message::GoToTagDetectingState => text.put(b"detecting"),
        Message::IsWakeUp => text.put(b"irq-out"),
        Message::CalibrateTagDetecting => text.put(b"calibrated"),
    }
}

fn put_level(text: &mut Text, level: u8)
    ensures { Adds text.old (level_text level) text.new }
{
    text.put(if level == 0 { b" low" } else { b" high" });
}

fn put_contents(text: &mut Text, contents: Contents, bytes: &[u8])
    ensures { Adds text.old (contents_text contents bytes.now) text.new }
{
    match contents {
        Contents::Bytes { .. } => text.put_bytes(bytes),
        Contents::Level => put_level(text, lines::at(bytes, 0)),
        Contents::Tags => {
            text.put_number((bytes.len() / rows::TAG_SIZE) as u64);
            text.put_bytes(bytes);
        }
    }
}

fn put_error(text: &mut Text, code: u8)
    ensures { Adds text.old (error_text code) text.new }
{
    text.put(b"error");
    text.put_byte(code);
}

// An answer that was read.
fn put_read(text: &mut Text, message: Message, bytes: &[u8], read: Result<Part, AnswerError>)
    ensures { Adds text.old (read_text message bytes.now read) text.new }
{
    match read {
        Ok(part) => {
            put_name(text, message);
            let contents = rows::row_of(message).contents;
            put_contents(text, contents, part_of(bytes, part));
        }
        Err(AnswerError::BoardError { code } | AnswerError::ChipError { code }) => {
            put_error(text, code)
        }
        Err(AnswerError::Malformed) => refusals::put_refused(text, 5),
    }
}

// The answer to the command whose code comes first.
fn put_reply(text: &mut Text, given: &[u8])
    ensures { Adds text.old (reply_text (named (byte_at given.now 0)) (rest given.now 1)) text.new }
{
    let Some(message) = rows::message_of(lines::at(given, 0)) else {
        return refusals::put_refused(text, 5);
    };
    let answer = lines::after(given, 1);
    put_read(text, message, answer, reading::read_answer(message, answer));
}

// The answer to a call, which writes to the first n bytes of the output.
pub fn answer(call: Board, given: &[u8], out: &mut [u8], n: usize, text: &mut Text)
    ensures { Adds text.old (spoken_text call given.now (on_front n out.old (λ (front : List ℕ). wrote call given.now front))) text.new × (out.new ≡ (on_front n out.old (λ (front : List ℕ). wrote call given.now front)).bytes) }
{
    let written = write_on(call, given, out, n);
    match call {
        Board::Reads => put_command(text, given),
        Board::Replies => put_reply(text, given),
        _ => put_written(text, written, out),
    }
}
