// Where each first byte leads, for each awaited command: a map on the screen. bin/count-looks counts the instructions of its looks.

#![tactic(auto)]

use model::{Answer, Awaited, Interface, Kind, Outcome, Phase, Progress, Session, State};
use replies::reading;
use std::io;
use std::io::Write;

// All bytes and 00 again, so that each of the 256 looks ends where another begins. No other loop of the program has as many turns.
const LOOKS: usize = 257;

// A session that awaits the reply to a command.
fn awaiting(kind: Kind, first: u8) -> Session {
    Session {
        interface: Interface::Uart,
        state: State::Waiting {
            progress: Progress {
                awaited: Awaited { kind, first },
                phase: Phase::Begun,
            },
            selected: 1,
        },
        calibration: None,
    }
}

// Each byte is fed to such a session.
fn looks(session: Session, room: &mut [u8]) -> [Outcome; 256] {
    let mut outcomes = [session::power_on(session, Interface::Uart); 256];
    for i in 0..LOOKS {
        let at = i % 256;
        outcomes[at] = session::pieces::feed(session, &[at as u8], room);
    }
    outcomes
}

// More is to come: behind an error code, or behind a result code.
fn mark_of(state: State) -> u8 {
    match state {
        State::Waiting { progress, .. } => match progress.phase {
            Phase::Failed { .. } => b'!',
            _ => b'+',
        },
        _ => b'?',
    }
}

// Where a byte led: on, to a whole reply, or nowhere.
fn mark(outcome: Outcome) -> u8 {
    match outcome.answer {
        Answer::More => mark_of(outcome.session.state),
        Answer::Good => b'=',
        _ => b'.',
    }
}

// A line for each first digit, and in it a mark for each second.
fn map(outcomes: [Outcome; 256]) -> [u8; 272] {
    let mut map = [b'\n'; 272];
    for (i, outcome) in outcomes.iter().enumerate() {
        map[i + i / 16] = mark(*outcome);
    }
    map
}

fn show(rt: &HostRuntime, name: &[u8], session: Session) -> io::Result<()> {
    let mut room = [0u8; reading::LEAST_ROOM];
    let map = map(looks(session, &mut room));
    let mut screen = rt.stdout();
    screen.write_all(name)?;
    screen.write_all(&map)
}

fn main(rt: HostRuntime) -> io::Result<()> {
    show(&rt, b"IDN\n", awaiting(Kind::Idn, 0x00))?;
    show(
        &rt,
        b"ProtocolSelect\n",
        awaiting(Kind::ProtocolSelect, 0x01),
    )?;
    show(&rt, b"SendRecv\n", awaiting(Kind::SendRecv, 0x00))?;
    show(&rt, b"Idle\n", awaiting(Kind::Idle, 0x03))?;
    show(&rt, b"RdReg\n", awaiting(Kind::RdReg, 0x62))?;
    show(&rt, b"WrReg\n", awaiting(Kind::WrReg, 0x3A))?;
    show(&rt, b"Echo\n", awaiting(Kind::Echo, 0x00))
}
