// Times and waits of an Idle command, as text.

#![tactic(auto)]

ghost use Rattle.std.specs.Prelude.{[], ◌∷◌, ◌++◌};
ghost use Rattle.model.specs.Frames.{settings};
ghost use Rattle.text.specs.Adding.{Adds};
ghost use Rattle.text.specs.Writing.{word};
ghost use Rattle.durations.specs.Milliseconds.{milliseconds_text, all_milliseconds, ticks_of, Countable, all_ticks_of, AllCountable};
ghost use Rattle.durations.specs.Durations.{in_order, numbers, times_text, wait_text};

mod milliseconds;

use model::{Ticks, Times, Wait};
use text::Text;

fn put_numbers(text: &mut Text, given: &[u32])
    ensures { Adds text.old (numbers given.now) text.new }
{
    for n in given {
        text.put_number(u64::from(*n));
    }
}

fn put_ticks(text: &mut Text, t: Ticks)
    ensures { Adds text.old (word "ticks" ∷ numbers (in_order t)) text.new }
{
    text.put(b"ticks");
    put_numbers(
        text,
        &[t.low, t.reference, t.inactive, t.timeout, t.osc, t.dac],
    );
}

// As put_numbers: what one closure would put in each turn has no name that a contract over both could use.
fn put_milliseconds(text: &mut Text, given: &[u64])
    ensures { Adds text.old (all_milliseconds given.now) text.new }
{
    for ticks in given {
        milliseconds::put(text, *ticks);
    }
}

// That times are countable is asked here, of one wait and of one time; an f32 has no room for the fact, and Times is document 01's own form.
fn put_times(text: &mut Text, t: Times)
    requires { AllCountable t }
    ensures { Adds text.old (word " ms" ∷ all_milliseconds (all_ticks_of t)) text.new }
{
    text.put(b" ms");
    let six = [
        milliseconds::ticks(t.low),
        milliseconds::ticks(t.reference),
        milliseconds::ticks(t.inactive),
        milliseconds::ticks(t.timeout),
        milliseconds::ticks(t.osc),
        milliseconds::ticks(t.dac),
    ];
    put_milliseconds(text, &six);
}

// The times of an Idle command with these data, in ticks and in milliseconds.
pub fn times(given: &[u8], text: &mut Text)
    ensures { Adds text.old (times_text (settings given.now)) text.new }
{
    match times::times_of(settings::of_data(given)) {
        Ok((ticks, times)) => {
            put_ticks(text, ticks);
            put_times(text, times);
        }
        Err(refusal) => refusals::put_refusal(text, refusal),
    }
}

fn put_after(text: &mut Text, ms: f32)
    requires { Countable ms }
    ensures { Adds text.old (word "after" ∷ (milliseconds_text (ticks_of ms) ++ (word " ms" ∷ []))) text.new }
{
    text.put(b"after");
    milliseconds::put(text, milliseconds::ticks(ms));
    text.put(b" ms");
}

// How long an Idle command with these data waits.
pub fn wait(given: &[u8], text: &mut Text)
    ensures { Adds text.old (wait_text (settings given.now)) text.new }
{
    match times::wait_of(settings::of_data(given)) {
        Ok(wait) => match wait {
            Wait::Endless => text.put(b"endless"),
            Wait::After(ms) => put_after(text, ms),
        },
        Err(refusal) => refusals::put_refusal(text, refusal),
    }
}
