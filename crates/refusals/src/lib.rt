// A refusal, as text.

#![tactic(auto)]

ghost use Rattle.std.specs.Prelude.{◌≡◌};
ghost use Rattle.model.specs.Refusals.{number_of};
ghost use Rattle.refusals.specs.Refusals.{commands_text, values_text, refused_text, refusal_text};
ghost use Rattle.text.specs.Adding.{Adds};

use model::Refusal;
use text::Text;

// The number of a refusal. Its variants carry values, and so have no numbers of their own.
fn number_of(refusal: Refusal) -> u8
    ensures { result ≡ number_of refusal }
{
    match refusal {
        Refusal::Short => 1,
        Refusal::Invalid => 2,
        Refusal::Unready => 3,
        Refusal::Busy => 4,
        Refusal::Malformed => 5,
        Refusal::Unawaited => 6,
        Refusal::ChipError { .. } => 7,
        Refusal::LowestTimeout { .. } => 8,
        Refusal::HighestTag { .. } => 9,
        Refusal::NoLevel { .. } => 10,
        Refusal::CalibrationError { .. } => 12,
    }
}

// How many commands a calibration took.
pub fn put_commands(text: &mut Text, commands: u8)
    ensures { Adds text.old (commands_text commands) text.new }
{
    text.put_count(b" commands", commands as u64);
}

// The error code of the chip, and the number of commands of a calibration.
fn put_values(text: &mut Text, refusal: Refusal)
    ensures { Adds text.old (values_text refusal) text.new }
{
    match refusal {
        Refusal::ChipError { code } => text.put_byte(code),
        Refusal::LowestTimeout { commands }
        | Refusal::HighestTag { commands }
        | Refusal::NoLevel { commands } => put_commands(text, commands),
        Refusal::CalibrationError { code, commands } => {
            text.put_byte(code);
            put_commands(text, commands);
        }
        _ => {}
    }
}

// A refusal that no session gives, by its number: its own enum, where it has one, is of the crate that gives it.
pub fn put_refused(text: &mut Text, number: u8)
    ensures { Adds text.old (refused_text number) text.new }
{
    text.put_count(b"refused", number as u64);
}

// A refusal that a session gives, with its values.
pub fn put_refusal(text: &mut Text, refusal: Refusal)
    ensures { Adds text.old (refusal_text refusal) text.new }
{
    put_refused(text, number_of(refusal));
    put_values(text, refusal);
}
