// The reply table: where a byte leads from each phase of a reply, by the form that is awaited.

#![tactic(auto)]

ghost use Rattle.std.specs.Prelude.{◌≡◌, true, []};
ghost use Rattle.model.specs.declared.Form.{Form};
ghost use Rattle.model.specs.declared.Phase.TheVariants.{Failed};
ghost use Rattle.model.specs.declared.Form.TheVariants.{Counted};
ghost use Rattle.table.specs.Errors.{mistaken};
ghost use Rattle.model.specs.Replies.{wrong, next, is_error, is_received, data_length, is_event, any_event, wake_of, at_first, counting, at_second, at_event, is_to_come, at_data};

use model::{End, Form, Phase, Step, Wake};

// The most data bytes that a reply has.
pub const MOST_DATA: u16 = 528;

// No reply has the byte at this place.
fn wrong(place: usize, byte: u8) -> Step
    ensures { result ≡ wrong place byte }
{
    Step::Over(End::Malformed { place, byte })
}

// Some event can come.
fn any_event(source: u8) -> bool
    ensures { result ≡ any_event source }
{
    source & 0x1B != 0
}

// 00 is the result code of all forms but two.
fn at_zero(form: Form) -> Step
    ensures { result ≡ at_first form 0x00 }
{
    match form {
        Form::Exactly { .. } => Step::On(Phase::Counting { code: 0x00 }),
        Form::Awake { source } if any_event(source) => Step::On(Phase::Counting { code: 0x00 }),
        _ => wrong(0, 0x00),
    }
}

// 55 is the whole reply to Echo, and begins no other.
fn at_echo(form: Form) -> Step
    ensures { result ≡ at_first form 0x55 }
{
    match form {
        Form::Single => Step::Over(End::Good),
        _ => wrong(0, 0x55), // it may stand inside the data of SendRecv's
    }
}

// 80, A0 and C0 are the result codes of SendRecv.
fn at_received(form: Form, code: u8) -> Step
    requires { is_received code ≡ true }
    ensures { result ≡ at_first form code }
{
    match form {
        Form::Counted => Step::On(Phase::Counting { code }),
        _ => wrong(0, code),
    }
}

// An error code answers all but Echo.
fn at_error(form: Form, code: u8) -> Step
    requires { is_error code ≡ true }
    ensures { result ≡ at_first form code }
{
    match form {
        Form::Single => wrong(0, code),
        _ => Step::On(Phase::Failed { code }),
    }
}

// The table of error codes: a bit for each byte, from 8F down to 80. Document 02 asks for a table or a mask in place of comparisons (P4).
const ERRORS: u16 = 0b1111_1111_1110_1100;

// The table marks the bytes that the paper does.
fn errors() -> u16
    ensures { mistaken result ≡ [] }
{
    ERRORS
}

// A byte is an error code.
fn is_error(byte: u8) -> bool
    ensures { result ≡ is_error byte }
{
    byte >> 4 == 0x8 && errors() >> (byte & 0x0F) & 1 == 1
}

// The first byte: a match with ranges for unknown codes, the form that document 01 names.
fn first(form: Form, byte: u8) -> Step
    ensures { result ≡ at_first form byte }
{
    if is_error(byte) {
        return at_error(form, byte);
    }
    match byte {
        0x00 => at_zero(form),
        0x55 => at_echo(form),
        0x80 | 0xA0 | 0xC0 => at_received(form, byte),
        0x01..=0x54 | 0x56..=0x7F | 0x81..=0x9F | 0xA1..=0xBF | 0xC1..=0xFF => wrong(0, byte),
    }
}

// The byte behind an error code.
fn close(code: u8, byte: u8) -> Step
    ensures { (form : Form) → result ≡ next form (Failed code) byte }
{
    if byte == 0x00 {
        return Step::Over(End::Error { code });
    }
    wrong(1, byte)
}

// So many data bytes are to come.
fn counted(count: u16) -> Step
    ensures { result ≡ counting count }
{
    if count == 0 {
        return Step::Over(End::Good);
    }
    Step::On(Phase::Data { have: 0, count })
}

// How many data bytes SendRecv's reply has: bits 9 and 8 of the number stand in bits 6 and 5 of the result code.
fn data_length(code: u8, byte: u8) -> u16
    ensures { result ≡ data_length code byte }
{
    (code & 0x60) as u16 * 8 + byte as u16
}

// The byte behind a result code of SendRecv.
fn received(code: u8, byte: u8) -> Step
    ensures { result ≡ at_second Counted code byte }
{
    let count = data_length(code, byte);
    if MOST_DATA < count {
        return wrong(1, byte);
    }
    counted(count)
}

// The byte behind a result code.
fn second(form: Form, code: u8, byte: u8) -> Step
    ensures { result ≡ at_second form code byte }
{
    match form {
        Form::Exactly { count } if byte == count => counted(byte as u16),
        Form::Counted => received(code, byte),
        Form::Awake { .. } if byte == 0x01 => Step::On(Phase::Waking),
        _ => wrong(1, byte),
    }
}

// The event is one of the four, and its own bit was set in WU source.
pub fn is_event(source: u8, event: u8) -> bool
    ensures { result ≡ is_event source event }
{
    // an arm for each, and not `source & event` for all: the proof tries the 256 sources of each event by themselves
    match event {
        0x01 => source & 0x01 != 0,
        0x02 => source & 0x02 != 0,
        0x08 => source & 0x08 != 0,
        0x10 => source & 0x10 != 0,
        _ => false,
    }
}

// What woke the chip; as the definition it answers for every byte, and is asked of events alone.
fn wake_of(event: u8) -> Wake
    ensures { result ≡ wake_of event }
{
    match event {
        0x01 => Wake::Timeout,
        0x02 => Wake::Tag,
        0x08 => Wake::IrqIn,
        _ => Wake::SpiSs,
    }
}

// The byte behind 00 01.
fn event(form: Form, byte: u8) -> Step
    ensures { result ≡ at_event form byte }
{
    match form {
        Form::Awake { source } if is_event(source, byte) => Step::Over(End::Woken {
            wake: wake_of(byte),
        }),
        _ => wrong(2, byte),
    }
}

// A data byte is to come, behind some: they are not all there, and no more than a reply has. All else is a record that no call made.
pub fn is_to_come(have: u16, count: u16) -> bool
    ensures { result ≡ is_to_come have count }
{
    have < count && count <= MOST_DATA
}

// A data byte, behind some.
fn data(have: u16, count: u16, byte: u8) -> Step
    ensures { result ≡ at_data have count byte }
{
    if !is_to_come(have, count) {
        return wrong(have as usize + 2, byte);
    }
    if have + 1 == count {
        return Step::Over(End::Good);
    }
    Step::On(Phase::Data {
        have: have + 1,
        count,
    })
}

// Where a byte leads from a phase.
pub fn next(form: Form, phase: Phase, byte: u8) -> Step
    ensures { result ≡ next form phase byte }
{
    match phase {
        Phase::Begun => first(form, byte),
        Phase::Failed { code } => close(code, byte),
        Phase::Counting { code } => second(form, code, byte),
        Phase::Waking => event(form, byte),
        Phase::Data { have, count } => data(have, count, byte),
    }
}
