// The table of messages, a row a message: the message that a code is of, what an answer can carry, and the error codes of the MCU.
ghost use Rattle.std.specs.Prelude.{◌≡◌};
ghost use Rattle.model.specs.Messages.{board, chip, row, named, family_byte, is_board_error, carries};

use model::{Contents, Family, Kind, Message, MessageRow};

// The bytes of a tag.
pub const TAG_SIZE: usize = 9;

const MOST_TAGS: usize = 28;

// A command of the board's: code and number of data bytes, then the code of the answer and what it carries.
fn board(code: u8, count: usize, response: u8, contents: Contents) -> MessageRow
    ensures { result ≡ board code count response contents }
{
    MessageRow {
        family: Family::Board,
        code,
        count,
        response,
        contents,
    }
}

// A command of the chip's, by the table of commands.
fn chip(kind: Kind, contents: Contents) -> MessageRow
    ensures { result ≡ chip kind contents }
{
    let row = kinds::row_of(kind);
    MessageRow {
        family: Family::Chip { kind },
        code: row.code,
        count: row.greatest,
        response: 0x00,
        contents,
    }
}

pub fn row_of(message: Message) -> MessageRow
    ensures { result ≡ row message }
{
    match message {
        Message::Idn => chip(Kind::Idn, Contents::Bytes { count: 15 }),
        Message::GetFirmwareVersion => board(0xBC, 0, 0x00, Contents::Bytes { count: 3 }),
        Message::Inventory => board(0xA1, 1, 0x80, Contents::Tags),
        Message::GoToTagDetectingState => board(0xA3, 2, 0x80, Contents::Bytes { count: 0 }),
        Message::IsWakeUp => board(0xA2, 0, 0x80, Contents::Level),
        Message::CalibrateTagDetecting => board(0xA4, 0, 0x80, Contents::Bytes { count: 2 }),
    }
}

// No TryFrom: an impl stands with its type, and the model has types alone.
pub fn message_of(code: u8) -> Option<Message>
    ensures { result ≡ named code }
{
    match code {
        0x01 => Some(Message::Idn),
        0xBC => Some(Message::GetFirmwareVersion),
        0xA1 => Some(Message::Inventory),
        0xA3 => Some(Message::GoToTagDetectingState),
        0xA2 => Some(Message::IsWakeUp),
        0xA4 => Some(Message::CalibrateTagDetecting),
        _ => None,
    }
}

// The first byte of a command message.
pub fn family_byte(family: Family) -> u8
    ensures { result ≡ family_byte family }
{
    match family {
        Family::Chip { .. } => 0x01,
        Family::Board => 0x02,
    }
}

// An error code that the MCU can return.
pub fn is_error(code: u8) -> bool
    ensures { result ≡ is_board_error code }
{
    matches!(code, 0xFE | 0xFD | 0xF7..=0xFA | 0xF5 | 0xF4)
}

// A whole number of tags, and no more than a count can tell.
fn are_tags(bytes: &[u8]) -> bool
    ensures { result ≡ carries Contents.Tags bytes.now }
{
    bytes.len() % TAG_SIZE == 0 && bytes.len() <= TAG_SIZE * MOST_TAGS
}

// An answer can carry the bytes: of a level 00 for low, 01 for high.
pub fn is_carried(contents: Contents, bytes: &[u8]) -> bool
    ensures { result ≡ carries contents bytes.now }
{
    match contents {
        Contents::Bytes { count } => bytes.len() == count,
        Contents::Level => matches!(bytes, [0x00 | 0x01]),
        Contents::Tags => are_tags(bytes),
    }
}
