// What the state of a session allows, and the session in another state.

#![tactic(auto)]

pub mod due;

ghost use Rattle.std.specs.Prelude.{◌≡◌, []};
ghost use Rattle.model.specs.Frames.{command};
ghost use Rattle.model.specs.Session.{into, pulsed, is_waiting, busy, is_off, is_selected, protocol_of, unready, barred, asking};
ghost use Rattle.states.specs.Leave.{leave};

use model::{Calibration, Kind, Refusal, Session, State};

// The same session in another state, with a calibration or none.
pub fn into(s: Session, state: State, calibration: Option<Calibration>) -> Session
    ensures { result ≡ into s state calibration }
{
    Session {
        state,
        calibration,
        ..s
    }
}

// A pulse wakes Power-up and changes no other state.
pub fn woken(state: State) -> State
    ensures { result ≡ pulsed state }
{
    match state {
        State::PowerUp => State::Ready,
        _ => state,
    }
}

// A reply is awaited.
fn is_waiting(state: State) -> bool
    ensures { result ≡ is_waiting state }
{
    matches!(state, State::Waiting { .. })
}

// A reply is awaited, or a calibration runs.
pub(crate) fn is_busy(s: Session) -> bool
    ensures { result ≡ busy s }
{
    is_waiting(s.state) || s.calibration.is_some()
}

// Power-up or Lost.
pub(crate) fn is_off(state: State) -> bool
    ensures { result ≡ is_off state }
{
    matches!(state, State::PowerUp | State::Lost)
}

// The protocol that is selected, 0 for none, as in the paper, where protocol 0 leads to Ready.
pub fn protocol_of(state: State) -> u8
    ensures { result ≡ protocol_of state }
{
    match state {
        State::Selected { protocol } => protocol,
        _ => 0,
    }
}

fn is_selected(state: State) -> bool
    ensures { result ≡ is_selected state }
{
    matches!(state, State::Selected { .. })
}

// Power-up or Lost, or SendRecv outside Selected.
fn is_unready(state: State, kind: Kind) -> bool
    ensures { result ≡ unready state (command kind []) }
{
    is_off(state) || kinds::are_same(kind, Kind::SendRecv) && !is_selected(state)
}

// SendRecv without data, with another protocol than 1.
fn is_barred(state: State, kind: Kind, payload: &[u8]) -> bool
    ensures { result ≡ barred state (command kind payload.now) }
{
    kinds::are_same(kind, Kind::SendRecv) && payload.is_empty() && protocol_of(state) != 1
}

// The leave to send a command, or why it is refused before it is written: 4, 3, 2.
pub fn leave_for(s: Session, kind: Kind, payload: &[u8]) -> Result<(), Refusal>
    ensures { result ≡ leave (asking s (command kind payload.now)) }
{
    if is_busy(s) {
        return Err(Refusal::Busy);
    }
    if is_unready(s.state, kind) {
        return Err(Refusal::Unready);
    }
    if is_barred(s.state, kind, payload) {
        return Err(Refusal::Invalid);
    }
    Ok(())
}
