// The readers: the command that a message carries, and an answer taken apart. A message is its bytes exactly.
ghost use Rattle.std.specs.Prelude.{◌≡◌, ◌&&◌, eqb};
ghost use Rattle.model.specs.Messages.{row, named, family_byte, taken, is_framed, carried, opened, by_end, read_reply, read_carried, read_good, read_error, ReadsMessage, ReadsAnswer};

use super::rows;
use model::{AnswerError, Awaited, Contents, End, Family, Kind, Message, MessageRow, Phase, Step};
use words::Part;

// Code, count and so many data, and nothing more.
fn is_framed(bytes: &[u8]) -> bool
    ensures { result ≡ is_framed bytes.now }
{
    match bytes {
        [_, count, payload @ ..] => *count as usize == payload.len(),
        _ => false,
    }
}

// Family and number of data bytes are those of the row.
fn fits(message: Message, family: u8, count: usize) -> bool
    ensures { result ≡ (eqb family (family_byte (row message).family) && eqb count (row message).count) }
{
    let row = rows::row_of(message);
    family == rows::family_byte(row.family) && count == row.count
}

// A command message by its family, its code and its data.
fn taken(family: u8, code: u8, payload: &[u8]) -> Option<(Message, Part)>
    ensures { result ≡ taken (named code) family payload.now }
{
    let message = rows::message_of(code)?;
    if !fits(message, family, payload.len()) {
        return None;
    }
    Some((
        message,
        Part {
            start: 3,
            count: payload.len(),
        },
    ))
}

// The command that a message carries, with the part that its data are.
pub fn read_command(bytes: &[u8]) -> Option<(Message, Part)>
    ensures { ReadsMessage bytes.now result }
{
    match bytes {
        [family, code, _, payload @ ..] if is_framed(&bytes[1..]) => taken(*family, *code, payload),
        _ => None,
    }
}

// What is carried stands from an index of the answer on.
fn carried(contents: Contents, start: usize, bytes: &[u8]) -> Result<Part, AnswerError>
    ensures { result ≡ carried contents start bytes.now }
{
    if !rows::is_carried(contents, bytes) {
        return Err(AnswerError::Malformed);
    }
    Ok(Part {
        start,
        count: bytes.len(),
    })
}

// Tags, behind their number.
fn numbered(rest: &[u8]) -> Result<Part, AnswerError>
    ensures { result ≡ opened Contents.Tags rest.now }
{
    match rest {
        [number, tags @ ..] if *number as usize == tags.len() / rows::TAG_SIZE => {
            carried(Contents::Tags, 3, tags)
        }
        _ => Err(AnswerError::Malformed),
    }
}

// What stands behind code and count.
fn opened(contents: Contents, rest: &[u8]) -> Result<Part, AnswerError>
    ensures { result ≡ opened contents rest.now }
{
    match contents {
        Contents::Tags => numbered(rest),
        _ => carried(contents, 2, rest),
    }
}

// The answer to a command of the board's.
fn read_carried(row: MessageRow, bytes: &[u8]) -> Result<Part, AnswerError>
    ensures { result ≡ read_carried row bytes.now }
{
    match bytes {
        [code, _, rest @ ..] if is_framed(bytes) && *code == row.response => {
            opened(row.contents, rest)
        }
        _ => Err(AnswerError::Malformed),
    }
}

// The chip's own reply, of so many bytes, by its end: its data are what follows the second byte.
fn by_end(end: End, count: usize) -> Result<Part, AnswerError>
    ensures { result ≡ by_end end count }
{
    match end {
        End::Good | End::Woken { .. } => Ok(Part {
            start: 2,
            count: count.saturating_sub(2),
        }),
        End::Error { code } => Err(AnswerError::ChipError { code }),
        End::Malformed { .. } => Err(AnswerError::Malformed),
    }
}

// The answer to a command of the chip's, by the table of replies: its own reply, which fills the answer.
fn read_reply(kind: Kind, bytes: &[u8]) -> Result<Part, AnswerError>
    ensures { result ≡ read_reply kind bytes.now }
{
    let form = kinds::form_of(Awaited { kind, first: 0 });
    let walk = replies::reading::walk(form, Phase::Begun, bytes);
    match walk.step {
        Step::Over(end) if walk.used == bytes.len() => by_end(end, bytes.len()),
        _ => Err(AnswerError::Malformed),
    }
}

// An answer that is no error of the MCU's.
fn read_good(row: MessageRow, bytes: &[u8]) -> Result<Part, AnswerError>
    ensures { result ≡ read_good row.family row bytes.now }
{
    match row.family {
        Family::Chip { kind } => read_reply(kind, bytes),
        Family::Board => read_carried(row, bytes),
    }
}

// An error code of the MCU's, and no data.
fn read_error(bytes: &[u8]) -> Result<Part, AnswerError>
    ensures { result ≡ read_error bytes.now }
{
    match bytes {
        [code, 0x00] => Err(AnswerError::BoardError { code: *code }),
        _ => Err(AnswerError::Malformed),
    }
}

// The answer to a command, taken apart: the part that holds what is carried.
pub fn read_answer(message: Message, bytes: &[u8]) -> Result<Part, AnswerError>
    ensures { ReadsAnswer message bytes.now result }
{
    match bytes {
        [] => Err(AnswerError::Malformed),
        [code, ..] if rows::is_error(*code) => read_error(bytes),
        _ => read_good(rows::row_of(message), bytes),
    }
}
