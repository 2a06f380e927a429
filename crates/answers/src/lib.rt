// What a call of the session answered, as text.

#![tactic(auto)]

ghost use Rattle.std.specs.Prelude.{[], ◌∷◌};
ghost use Rattle.text.specs.Adding.{Adds};
ghost use Rattle.text.specs.Writing.{word, hex, hexes};
ghost use Rattle.refusals.specs.Refusals.{commands_text};
ghost use Rattle.answers.specs.Answers.{wake_name, answer_text, held_text, used_text};

use model::{Answer, Place, Wake};
use text::Text;

fn put_wake(text: &mut Text, wake: Wake)
    ensures { Adds text.old (wake_name wake ∷ []) text.new }
{
    match wake {
        Wake::Timeout => text.put(b" timeout"),
        Wake::Tag => text.put(b" tag"),
        Wake::IrqIn => text.put(b" irq-in"),
        Wake::SpiSs => text.put(b" spi-ss"),
    }
}

// What woke the chip.
fn put_woken(text: &mut Text, wake: Wake)
    ensures { Adds text.old (word "woken" ∷ wake_name wake ∷ []) text.new }
{
    text.put(b"woken");
    put_wake(text, wake);
}

// The bytes that were sent.
fn put_sent(text: &mut Text, bytes: &[u8])
    ensures { Adds text.old (word "sent" ∷ hexes bytes.now) text.new }
{
    text.put(b"sent");
    text.put_bytes(bytes);
}

// The reference that a calibration found.
fn put_reference(text: &mut Text, reference: u8, commands: u8)
    ensures { Adds text.old (word "reference" ∷ hex reference ∷ commands_text commands) text.new }
{
    text.put(b"reference");
    text.put_byte(reference);
    refusals::put_commands(text, commands);
}

// The answer itself; the bytes that were sent are at the front of out.
pub fn put_answer(text: &mut Text, answer: Answer, out: &[u8])
    ensures { Adds text.old (answer_text answer out.now) text.new }
{
    match answer {
        Answer::Done => text.put(b"ok"),
        Answer::Sent { count } => put_sent(text, lines::front(out, count)),
        Answer::More => text.put(b"more"),
        Answer::Good => text.put(b"good"),
        Answer::Woken { wake } => put_woken(text, wake),
        Answer::Reference {
            reference,
            commands,
        } => put_reference(text, reference, commands),
        Answer::Refused(refusal) => refusals::put_refusal(text, refusal),
    }
}

// Bytes behind the name of the buffer that holds them; no bytes, no name.
fn put_held(text: &mut Text, name: &[u8], bytes: &[u8])
    ensures { Adds text.old (held_text name.now bytes.now) text.new }
{
    if !bytes.is_empty() {
        text.put(name);
        text.put_bytes(bytes);
    }
}

// How much of a piece was used, and the data of the reply, with the buffer that holds them.
pub fn put_used<'a>(text: &mut Text, used: usize, place: Place, piece: &'a [u8], room: &'a [u8])
    ensures { Adds text.old (used_text used place piece.now room.now) text.new }
{
    text.put_count(b" used", used as u64);
    let part = replies::data_of(piece, room, place);
    match place {
        Place::Nowhere => {}
        Place::Piece { .. } => put_held(text, b" piece", part),
        Place::Room { .. } => put_held(text, b" room", part),
    }
}
