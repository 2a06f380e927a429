// Questions that need no session: times, waits, bands, frames taken apart, what SPI brings back, and stakes.

#![tactic(auto)]

ghost use Rattle.std.specs.Prelude.{◌≡◌, [], ◌∷◌};
ghost use Rattle.calls.specs.Calls.{given_for};
ghost use Rattle.text.specs.Adding.{Adds};
ghost use Rattle.text.specs.Writing.{hexes};
ghost use Rattle.stakes.specs.Stakes.{written};
ghost use Rattle.questions.specs.Questions.{yes_or_no, named, stake_text, question_text};

use calls::Question;
use model::{Band, Kind};
use stakes::{Crc, Stake, Uid};
use text::Text;

fn band(given: &[u8], text: &mut Text)
    ensures { Adds text.old (question_text Question.Band given.now) text.new }
{
    match calibration::guard_band(lines::at(given, 0)) {
        Some(Band { low, high }) => {
            text.put(b"band");
            text.put_byte(low);
            text.put_byte(high);
        }
        None => refusals::put_refused(text, 11),
    }
}

// What the call that sends data is given: of RdReg's the register alone.
fn given_for(kind: Kind, payload: &[u8]) -> &[u8]
    ensures { result.now ≡ given_for kind payload.now }
{
    if kinds::are_same(kind, Kind::RdReg) {
        return lines::front(payload, 1);
    }
    payload
}

// The call that would send a frame: its data stand behind code and length.
fn command(given: &[u8], text: &mut Text)
    ensures { Adds text.old (question_text Question.Command given.now) text.new }
{
    match commands::read_command(given) {
        Ok(frame) => {
            calls::put_kind(text, frame.kind);
            text.put_bytes(given_for(frame.kind, lines::after(given, 2)));
        }
        Err(refusal) => refusals::put_refusal(text, refusal),
    }
}

fn put_yes_or_no(text: &mut Text, holds: bool)
    ensures { Adds text.old (yes_or_no holds ∷ []) text.new }
{
    text.put(if holds { b" yes" } else { b" no" });
}

fn flags(given: &[u8], text: &mut Text)
    ensures { Adds text.old (question_text Question.Flags given.now) text.new }
{
    let flags = spi::flags(lines::at(given, 0));
    text.put(b"read");
    put_yes_or_no(text, flags.read);
    text.put(b" send");
    put_yes_or_no(text, flags.send);
}

// A name, and bytes behind it.
fn put_named(text: &mut Text, name: &[u8], bytes: &[u8])
    ensures { Adds text.old (name.now ∷ hexes bytes.now) text.new }
{
    text.put(name);
    text.put_bytes(bytes);
}

fn received(given: &[u8], text: &mut Text)
    ensures { Adds text.old (question_text Question.Received given.now) text.new }
{
    put_named(text, b"bytes", spi::received(given));
}

// A UID as people write it.
fn put_uid(text: &mut Text, uid: Uid)
    ensures { Adds text.old (named " uid" (written uid)) text.new }
{
    let bytes = [
        uid.first,
        uid.second,
        uid.third,
        uid.fourth,
        uid.fifth,
        uid.sixth,
        uid.seventh,
        uid.eighth,
    ];
    put_named(text, b" uid", &bytes);
}

// The low byte first, as it is sent.
fn put_crc(text: &mut Text, crc: Crc)
    ensures { Adds text.old (named " crc" (crc.low ∷ crc.high ∷ [])) text.new }
{
    let bytes = [crc.low, crc.high];
    put_named(text, b" crc", &bytes);
}

fn put_stake(text: &mut Text, stake: Stake)
    ensures { Adds text.old (stake_text stake) text.new }
{
    put_named(text, b"flags", &[stake.flags]);
    put_named(text, b" dsfid", &[stake.dsfid]);
    put_uid(text, stake.uid);
    put_crc(text, stake.crc);
}

// The data of an inventory's reply, taken apart.
fn stake(given: &[u8], text: &mut Text)
    ensures { Adds text.old (question_text Question.Stake given.now) text.new }
{
    match stakes::read(given) {
        Ok(stake) => put_stake(text, stake),
        Err(refusal) => refusals::put_refused(text, stakes::number_of(refusal)),
    }
}

// The answer to a question over the bytes that were given.
pub fn answer(question: Question, given: &[u8], text: &mut Text)
    ensures { Adds text.old (question_text question given.now) text.new }
{
    match question {
        Question::Times => durations::times(given, text),
        Question::Wait => durations::wait(given, text),
        Question::Band => band(given, text),
        Question::Command => command(given, text),
        Question::Flags => flags(given, text),
        Question::Received => received(given, text),
        Question::Stake => stake(given, text),
    }
}
