// The calls of a script: what they are, and their names.

#![tactic(auto)]

ghost use Rattle.std.specs.Prelude.{◌≡◌, [], ◌∷◌};
ghost use Rattle.text.specs.Adding.{Adds};
ghost use Rattle.calls.specs.Calls.{rows, kind_name, message_name, found};
ghost use Rattle.calls.specs.Table.{first};

use model::{Kind, Message};
use text::Text;

// A call of the session that is fed nothing.
#[derive(Clone, Copy)]
pub enum Act {
    PowerOn,
    Pulse,
    // a command, by its kind
    Sends(Kind),
    // an inventory, by its number of slots
    Inventory,
    Reset,
    Poll,
    Read,
    Calibrate,
    Next,
}

// A question that needs no session.
#[derive(Clone, Copy)]
pub enum Question {
    Times,
    Wait,
    Band,
    Command,
    Flags,
    Received,
    Stake,
}

// A call on the messages of the demo board.
#[derive(Clone, Copy)]
pub enum Board {
    // writes a command message
    Asks(Message),
    // reads one
    Reads,
    // writes an answer
    Answers,
    // writes the answer with an error code of the MCU's
    Fails,
    // reads an answer
    Replies,
}

// A buffer that the caller lends.
#[derive(Clone, Copy)]
pub enum Buffer {
    Out,
    Room,
}

// What a line asks for, by its first word.
#[derive(Clone, Copy)]
pub enum Verb {
    Acts(Act),
    Feeds,
    Tells(Question),
    Speaks(Board),
    Sets(Buffer),
    Helps,
}

// What is wrong at a place of a line.
#[derive(Clone, Copy)]
pub enum Fault {
    // a line of more than 4,096 bytes
    TooLong,
    // no name of a call
    Unknown,
    // more than the call takes
    Longer,
    // no pair of hex digits
    NoPair,
    // no decimal number
    NoNumber,
    // neither spi nor uart
    NoInterface,
    // too few bytes, or too many
    Count { given: usize, wanted: usize },
    // no protocol byte
    NoProtocol,
    // no code of a command
    NoCode,
    // a number above the greatest
    Above { given: usize, greatest: usize },
}

// A line read as a call, with its number and how many bytes it has. A call without a number has 0, as in `ended`.
#[derive(Clone, Copy)]
pub struct Asked {
    pub call: Verb,
    pub number: usize,
    pub count: usize,
}

// What is wrong, and at which place of the line. Places are counted from 0.
#[derive(Clone, Copy)]
pub struct Wrong {
    pub place: usize,
    pub fault: Fault,
}

// What a call takes behind its name.
#[derive(Clone, Copy)]
pub enum Shape {
    Nothing,
    Interface,
    // a number, and so many bytes; where none are wanted the line ends, and what stands there is told as such
    Numbered { greatest: usize, wanted: usize },
    Exactly { wanted: usize },
    // one byte or more: what is missing where there is none
    Led { missing: Fault },
    Any,
}

// Puts the name of the call that sends a command. Each kind of name has a function with its rows, here and elsewhere: no two have a row in common.
pub fn put_kind(text: &mut Text, kind: Kind)
    ensures { Adds text.old (kind_name kind ∷ []) text.new }
{
    match kind {
        Kind::Idn => text.put(b"idn"),
        Kind::ProtocolSelect => text.put(b"select"),
        Kind::SendRecv => text.put(b"send"),
        Kind::Idle => text.put(b"idle"),
        Kind::RdReg => text.put(b"rdreg"),
        Kind::WrReg => text.put(b"wrreg"),
        Kind::Echo => text.put(b"echo"),
    }
}

// Puts the name of the call that writes a command message.
pub fn put_message(text: &mut Text, message: Message)
    ensures { Adds text.old (message_name message ∷ []) text.new }
{
    match message {
        Message::Idn => text.put(b"usb-idn"),
        Message::GetFirmwareVersion => text.put(b"usb-firmware"),
        Message::Inventory => text.put(b"usb-inventory"),
        Message::GoToTagDetectingState => text.put(b"usb-detect"),
        Message::IsWakeUp => text.put(b"usb-awake"),
        Message::CalibrateTagDetecting => text.put(b"usb-calibrate"),
    }
}

// The most that out and room can be.
pub const LONGEST: usize = 600;

// A number with nine digits.
const GREATEST: usize = 999999999;

// What calls take, where several take the same or it is more than a word.
const NUMBER: Shape = Shape::Numbered {
    greatest: GREATEST,
    wanted: 0,
};

const LENGTH: Shape = Shape::Numbered {
    greatest: LONGEST,
    wanted: 0,
};

const PLAN: Shape = Shape::Numbered {
    greatest: 255,
    wanted: 10,
};

const SETTINGS: Shape = Shape::Exactly { wanted: 14 };

const ONE: Shape = Shape::Exactly { wanted: 1 };

const TWO: Shape = Shape::Exactly { wanted: 2 };

const PROTOCOL: Shape = Shape::Led {
    missing: Fault::NoProtocol,
};

const CODE: Shape = Shape::Led {
    missing: Fault::NoCode,
};

// Each name, its call, and what this takes; by first letters, so that those of a letter stand together.
static ROWS: [(&[u8], Verb, Shape); 36] = [
    (b"band", Verb::Tells(Question::Band), ONE),
    (b"calibrate", Verb::Acts(Act::Calibrate), PLAN),
    (b"command", Verb::Tells(Question::Command), Shape::Any),
    (b"echo", Verb::Acts(Act::Sends(Kind::Echo)), Shape::Nothing),
    (b"feed", Verb::Feeds, Shape::Any),
    (b"flags", Verb::Tells(Question::Flags), ONE),
    (b"help", Verb::Helps, Shape::Nothing),
    (b"idn", Verb::Acts(Act::Sends(Kind::Idn)), Shape::Nothing),
    (b"idle", Verb::Acts(Act::Sends(Kind::Idle)), SETTINGS),
    (b"inventory", Verb::Acts(Act::Inventory), NUMBER),
    (b"next", Verb::Acts(Act::Next), Shape::Nothing),
    (b"out", Verb::Sets(Buffer::Out), LENGTH),
    (b"power-on", Verb::Acts(Act::PowerOn), Shape::Interface),
    (b"pulse", Verb::Acts(Act::Pulse), Shape::Nothing),
    (b"poll", Verb::Acts(Act::Poll), Shape::Nothing),
    (b"reset", Verb::Acts(Act::Reset), Shape::Nothing),
    (b"read", Verb::Acts(Act::Read), NUMBER),
    (b"received", Verb::Tells(Question::Received), Shape::Any),
    (b"rdreg", Verb::Acts(Act::Sends(Kind::RdReg)), ONE),
    (b"room", Verb::Sets(Buffer::Room), LENGTH),
    (
        b"select",
        Verb::Acts(Act::Sends(Kind::ProtocolSelect)),
        PROTOCOL,
    ),
    (b"send", Verb::Acts(Act::Sends(Kind::SendRecv)), Shape::Any),
    (b"stake", Verb::Tells(Question::Stake), Shape::Any),
    (b"times", Verb::Tells(Question::Times), SETTINGS),
    (
        b"usb-idn",
        Verb::Speaks(Board::Asks(Message::Idn)),
        Shape::Nothing,
    ),
    (
        b"usb-firmware",
        Verb::Speaks(Board::Asks(Message::GetFirmwareVersion)),
        Shape::Nothing,
    ),
    (
        b"usb-inventory",
        Verb::Speaks(Board::Asks(Message::Inventory)),
        ONE,
    ),
    (
        b"usb-detect",
        Verb::Speaks(Board::Asks(Message::GoToTagDetectingState)),
        TWO,
    ),
    (
        b"usb-awake",
        Verb::Speaks(Board::Asks(Message::IsWakeUp)),
        Shape::Nothing,
    ),
    (
        b"usb-calibrate",
        Verb::Speaks(Board::Asks(Message::CalibrateTagDetecting)),
        Shape::Nothing,
    ),
    (b"usb", Verb::Speaks(Board::Reads), Shape::Any),
    (b"usb-answer", Verb::Speaks(Board::Answers), CODE),
    (b"usb-error", Verb::Speaks(Board::Fails), ONE),
    (b"usb-reply", Verb::Speaks(Board::Replies), CODE),
    (b"wait", Verb::Tells(Question::Wait), SETTINGS),
    (b"wrreg", Verb::Acts(Act::Sends(Kind::WrReg)), Shape::Any),
];

// The rows among which a word is to be found, by its first letter.
fn candidates(word: &[u8]) -> &'static [(&'static [u8], Verb, Shape)]
    ensures { first word.now result.now ≡ found word.now rows }
{
    match lines::at(word, 0) {
        b'b' => &ROWS[0..1],
        b'c' => &ROWS[1..3],
        b'e' => &ROWS[3..4],
        b'f' => &ROWS[4..6],
        b'h' => &ROWS[6..7],
        b'i' => &ROWS[7..10],
        b'n' => &ROWS[10..11],
        b'o' => &ROWS[11..12],
        b'p' => &ROWS[12..15],
        b'r' => &ROWS[15..20],
        b's' => &ROWS[20..23],
        b't' => &ROWS[23..24],
        b'u' => &ROWS[24..34],
        b'w' => &ROWS[34..36],
        _ => &[],
    }
}

// The call that a word names, and what it takes.
pub fn call_of(word: &[u8]) -> Option<(Verb, Shape)>
    ensures { result ≡ found word.now rows }
{
    for (name, call, shape) in candidates(word) {
        if lines::are_same(word, name) {
            return Some((*call, *shape));
        }
    }
    None
}
