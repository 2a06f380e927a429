// Where the chip stands, as text in brackets.

#![tactic(auto)]

ghost use Rattle.standing.specs.Standing.{state_name, state_text};
ghost use Rattle.text.specs.Adding.{Adds};

use model::{Session, State};
use text::Text;

fn put_name(text: &mut Text, state: State)
    ensures { Adds text.old (state_name state) text.new }
{
    match state {
        State::PowerUp => text.put(b" [power-up"),
        State::Ready => text.put(b" [ready"),
        State::Selected { protocol } => text.put_count(b" [selected", protocol as u64),
        State::Waiting { progress, .. } => {
            text.put(b" [waiting ");
            calls::put_kind(text, progress.awaited.kind);
        }
        State::Lost => text.put(b" [lost"),
    }
}

// The state in brackets, and whether a calibration runs.
pub fn put_state(text: &mut Text, s: Session)
    ensures { Adds text.old (state_text s) text.new }
{
    put_name(text, s.state);
    match s.calibration {
        None => text.put(b"]"),
        Some(_) => text.put(b", calibrating]"),
    }
}
