// What a call answers that sends, and the session that it leads to; a refusal that changes nothing.

#![tactic(auto)]

ghost use Rattle.std.specs.Prelude.{◌≡◌};
ghost use Rattle.model.specs.Frames.{command};
ghost use Rattle.model.specs.Session as sessions;
ghost use Rattle.sending.specs.Sent.{waiting, sent_by};

use model::{
    Answer, Awaited, Calibration, Interface, Kind, Outcome, Phase, Place, Progress, Refusal,
    Session, State,
};

// An answer that consumes nothing and names no data.
pub fn outcome(s: Session, answer: Answer) -> Outcome
    ensures { result ≡ sessions.outcome s answer }
{
    Outcome {
        session: s,
        answer,
        used: 0,
        place: Place::Nowhere,
    }
}

// A refusal that changes nothing.
pub fn refused(s: Session, refusal: Refusal) -> Outcome
    ensures { result ≡ sessions.outcome s (Answer.Refused refusal) }
{
    outcome(s, Answer::Refused(refusal))
}

// Bytes were written and the session goes on, or it stays.
pub fn sent(written: Result<usize, Refusal>, s: Session, next: Session) -> Outcome
    ensures { result ≡ sent_by written s next }
{
    match written {
        Ok(count) => outcome(next, Answer::Sent { count }),
        Err(refusal) => refused(s, refusal),
    }
}

// Power-up, with nothing awaited and no calibration.
pub fn powered(interface: Interface) -> Session
    ensures { result ≡ sessions.powered interface }
{
    Session {
        interface,
        state: State::PowerUp,
        calibration: None,
    }
}

// A reply is awaited, and the calibration is as given.
fn awaiting(s: Session, awaited: Awaited, calibration: Option<Calibration>) -> Session
    ensures { result ≡ waiting s awaited calibration }
{
    let progress = Progress {
        awaited,
        phase: Phase::Begun,
    };
    let selected = states::protocol_of(s.state);
    states::into(s, State::Waiting { progress, selected }, calibration)
}

// A command of a calibration was written and its reply is awaited, or the session stays.
pub fn sent_awaiting(
    s: Session,
    awaited: Awaited,
    calibration: Option<Calibration>,
    written: Result<usize, Refusal>,
) -> Outcome
    ensures { result ≡ sent_by written s (waiting s awaited calibration) }
{
    sent(written, s, awaiting(s, awaited, calibration))
}

// A command was written and its reply is awaited, or the session stays.
pub fn requested(s: Session, kind: Kind, payload: &[u8], written: Result<usize, Refusal>) -> Outcome
    ensures { result ≡ sent_by written s (sessions.awaiting s (command kind payload.now) s.calibration) }
{
    let first = settings::at(payload, 0);
    sent_awaiting(s, Awaited { kind, first }, s.calibration, written)
}
