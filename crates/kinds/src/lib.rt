// The table of commands, a row a kind; the command that a code is of, whether data are permitted, and the form of the reply.

#![tactic(auto)]

ghost use Rattle.std.specs.Prelude.{◌≡◌};
ghost use Rattle.model.specs.Frames.{entry, row, obeys, kind_of, permits, is};
ghost use Rattle.model.specs.Replies.{form_of};

use model::{Awaited, Form, Kind, Row, Rule};

// The code, the least and the greatest number of data bytes, and the field rule.
fn entry(code: u8, least: usize, greatest: usize, rule: Rule) -> Row
    ensures { result ≡ entry code least greatest rule }
{
    Row {
        code,
        least,
        greatest,
        rule,
    }
}

pub fn row_of(kind: Kind) -> Row
    ensures { result ≡ row kind }
{
    match kind {
        Kind::Idn => entry(0x01, 0, 0, Rule::Any),
        Kind::ProtocolSelect => entry(0x02, 2, 9, Rule::Protocol),
        Kind::SendRecv => entry(0x04, 0, 255, Rule::Any),
        Kind::Idle => entry(0x07, 14, 14, Rule::Idling),
        Kind::RdReg => entry(0x08, 3, 3, Rule::RegisterRead),
        Kind::WrReg => entry(0x09, 3, 4, Rule::RegisterWrite),
        Kind::Echo => entry(0x55, 0, 0, Rule::Any),
    }
}

pub fn code_of(kind: Kind) -> u8
    ensures { result ≡ (row kind).code }
{
    row_of(kind).code
}

// The form of a good reply.
pub fn form_of(awaited: Awaited) -> Form
    ensures { result ≡ form_of awaited }
{
    match awaited.kind {
        Kind::Idn => Form::Exactly { count: 15 },
        Kind::ProtocolSelect => Form::Exactly { count: 0 },
        Kind::SendRecv => Form::Counted,
        Kind::Idle => Form::Awake {
            source: awaited.first,
        },
        Kind::RdReg => Form::Exactly { count: 1 },
        Kind::WrReg => Form::Exactly { count: 0 },
        Kind::Echo => Form::Single,
    }
}

// No TryFrom: an impl stands with its type, and the model has types alone.
pub fn kind_of(code: u8) -> Option<Kind>
    ensures { result ≡ kind_of code }
{
    match code {
        0x01 => Some(Kind::Idn),
        0x02 => Some(Kind::ProtocolSelect),
        0x04 => Some(Kind::SendRecv),
        0x07 => Some(Kind::Idle),
        0x08 => Some(Kind::RdReg),
        0x09 => Some(Kind::WrReg),
        0x55 => Some(Kind::Echo),
        _ => None,
    }
}

// A command is the one named, in the model's word for it, of which the theorems speak.
pub fn are_same(kind: Kind, named: Kind) -> bool
    ensures { result ≡ is kind named }
{
    kind == named
}

// A field rule holds. A rule is a name and no function, so that a row of the table is plain data.
fn does_obey(rule: Rule, payload: &[u8]) -> bool
    ensures { result ≡ obeys rule payload.now }
{
    match rule {
        Rule::Any => true,
        Rule::Protocol => settings::at(payload, 0) <= 4,
        Rule::Idling => settings::is_allowed(settings::of_data(payload)),
        Rule::RegisterRead => registers::is_read_allowed(payload),
        Rule::RegisterWrite => registers::is_write_allowed(payload),
    }
}

// As many data bytes as the table says, by the field rule.
pub fn is_permitted(kind: Kind, payload: &[u8]) -> bool
    ensures { result ≡ permits kind payload.now }
{
    let row = row_of(kind);
    (row.least..=row.greatest).contains(&payload.len()) && does_obey(row.rule, payload)
}
