// Which byte of a malformed reply is wrong, and what is wrong with it.

#![tactic(auto)]

ghost use Rattle.std.specs.Prelude.{◌≡◌, not, ◌&&◌};
ghost use Rattle.model.specs.Replies.{is_event, is_known_event, event_flaw, flaw_at, wrong_byte};

use model::{Flaw, Form, WrongByte};

// One of the four events.
fn is_known_event(event: u8) -> bool
    ensures { result ≡ is_known_event event }
{
    matches!(event, 0x01 | 0x02 | 0x08 | 0x10)
}

// One of the four, and its own bit was not set in WU source.
fn is_disabled(source: u8, event: u8) -> bool
    ensures { result ≡ (is_known_event event && not (is_event source event)) }
{
    is_known_event(event) && !table::is_event(source, event)
}

// What is wrong with a byte that should be an event.
fn event_flaw(form: Form, event: u8) -> Flaw
    ensures { result ≡ event_flaw form event }
{
    match form {
        Form::Awake { source } if is_disabled(source, event) => Flaw::NotEnabled,
        _ => Flaw::NoEvent,
    }
}

// What is wrong with a byte at a place of the reply.
fn flaw_at(form: Form, place: usize, byte: u8) -> Flaw
    ensures { result ≡ flaw_at form place byte }
{
    match place {
        0 => Flaw::FirstByte,
        1 => Flaw::SecondByte,
        _ => event_flaw(form, byte),
    }
}

// A byte that no reply of the form has at this place, counted from 0 at the reply's start.
pub fn wrong_byte(form: Form, place: usize, byte: u8) -> WrongByte
    ensures { result ≡ wrong_byte form place byte }
{
    WrongByte {
        flaw: flaw_at(form, place, byte),
        place,
        byte,
    }
}
