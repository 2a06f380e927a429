// What a piece that was read does to a session that waits, and where it leads a calibration.

#![tactic(auto)]

ghost use Rattle.std.specs.Prelude.{◌≡◌};
ghost use Rattle.model.specs.Session as sessions;

use model::{
    Answer, Awaited, Calibration, End, Fed, Kind, Outcome, Place, Plan, Refusal, Session, State,
    Turn, Verdict, Wake,
};

// Ready for protocol 0, Selected otherwise.
fn resting(protocol: u8) -> State
    ensures { result ≡ sessions.resting protocol }
{
    if protocol == 0 {
        return State::Ready;
    }
    State::Selected { protocol }
}

// The state after a good reply, with the protocol that was selected before.
fn after_good(awaited: Awaited, selected: u8) -> State
    ensures { result ≡ sessions.after_good awaited selected }
{
    if kinds::are_same(awaited.kind, Kind::ProtocolSelect) {
        return resting(awaited.first);
    }
    resting(selected)
}

// The state after the chip's error.
fn after_error(awaited: Awaited, selected: u8) -> State
    ensures { result ≡ sessions.after_error awaited selected }
{
    if kinds::are_same(awaited.kind, Kind::ProtocolSelect) {
        return State::Ready; // the protocol that was asked for is not selected, nor the one before
    }
    resting(selected) // Idle keeps the selection
}

// The session goes on in a state, with a calibration or none, behind the bytes that were read and with the data that they have. What was read and
// the session go apart, here and below, as in the definitions.
fn ended(
    fed: Fed,
    s: Session,
    state: State,
    calibration: Option<Calibration>,
    answer: Answer,
) -> Outcome
    ensures { result ≡ sessions.ended s state calibration answer fed.used fed.place }
{
    Outcome {
        session: states::into(s, state, calibration),
        answer,
        used: fed.used,
        place: fed.place,
    }
}

// Where an answer leads a calibration.
fn turned(turn: Turn, plan: Plan, wake: Wake, fed: Fed, s: Session) -> Outcome
    ensures { result ≡ sessions.turned turn plan wake s fed.used fed.place }
{
    match turn {
        Turn::Goes(search) => ended(
            fed,
            s,
            State::Ready,
            Some(Calibration { plan, search }),
            Answer::Woken { wake },
        ),
        Turn::Names {
            reference,
            commands,
        } => ended(
            fed,
            s,
            State::Ready,
            None,
            Answer::Reference {
                reference,
                commands,
            },
        ),
        Turn::Fails(refusal) => ended(fed, s, State::Ready, None, Answer::Refused(refusal)),
    }
}

// An Idle is over, outside a calibration or in one.
fn woken(wake: Wake, fed: Fed, s: Session) -> Outcome
    ensures { result ≡ sessions.woken s.calibration wake s fed.used fed.place }
{
    match s.calibration {
        None => ended(
            fed,
            s,
            State::Ready, // the selection is forgotten
            None,
            Answer::Woken { wake },
        ),
        Some(Calibration { plan, search }) => {
            turned(calibration::heard(search, wake), plan, wake, fed, s)
        }
    }
}

// The chip's error: 7 outside calibration, 12 in it.
fn error_by(calibration: Option<Calibration>, code: u8) -> Refusal
    ensures { result ≡ sessions.error_by calibration code }
{
    match calibration {
        None => Refusal::ChipError { code },
        Some(Calibration { plan: _, search }) => Refusal::CalibrationError {
            code,
            commands: search.commands,
        },
    }
}

// The reply is over.
fn ended_by(end: End, fed: Fed, s: Session, awaited: Awaited, selected: u8) -> Outcome
    ensures { result ≡ sessions.ended_by end s awaited selected fed.used fed.place }
{
    match end {
        End::Good => ended(
            fed,
            s,
            after_good(awaited, selected),
            s.calibration,
            Answer::Good,
        ),
        End::Woken { wake } => woken(wake, fed, s),
        End::Error { code } => ended(
            fed,
            s,
            after_error(awaited, selected),
            None,
            Answer::Refused(error_by(s.calibration, code)),
        ),
        End::Malformed { .. } => ended(
            fed,
            s,
            State::Lost,
            None,
            Answer::Refused(Refusal::Malformed),
        ),
    }
}

// What the piece does, by what was read.
pub fn outcome_of(fed: Fed, s: Session, awaited: Awaited, selected: u8) -> Outcome
    ensures { result ≡ sessions.outcome_by fed.verdict fed s awaited selected }
{
    let progress = fed.progress;
    match fed.verdict {
        Verdict::More => Outcome {
            place: Place::Nowhere,
            ..ended(
                fed,
                s,
                State::Waiting { progress, selected },
                s.calibration,
                Answer::More,
            )
        },
        Verdict::Ended(end) => ended_by(end, fed, s, awaited, selected),
        Verdict::NoRoom => sending::refused(s, Refusal::Short),
    }
}
