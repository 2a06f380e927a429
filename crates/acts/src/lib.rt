// The call of the session that a line makes, on as much of a buffer as is lent.

#![tactic(auto)]

ghost use Rattle.std.specs.Prelude.{◌≡◌};
ghost use Rattle.words.specs.Contract.{Is, on_front};
ghost use Rattle.model.specs.Frames.{command, send_recv};
ghost use Rattle.model.specs.Session.{request, feed, step, Meets};
ghost use Rattle.stakes.specs.Stakes as slots_asked;
ghost use Rattle.calls.specs.Calls.{data_for};
ghost use Rattle.acts.specs.Acts.{interface_of, plan_of, request_for, acted};

use calls::Act;
use model::{Interface, Kind, Outcome, Pair, Plan, Session};
use session::{calibrating, pieces, requests};
use stakes::Slots;

// The settings of a calibration: the prescaler, then pairs and times in wire order.
fn plan(prescaler: usize, given: &[u8]) -> Plan
    ensures { result ≡ plan_of prescaler given.now }
{
    Plan {
        prescaler: (prescaler % 256) as u8,
        enter: Pair {
            first: lines::at(given, 0),
            second: lines::at(given, 1),
        },
        wake: Pair {
            first: lines::at(given, 2),
            second: lines::at(given, 3),
        },
        leave: Pair {
            first: lines::at(given, 4),
            second: lines::at(given, 5),
        },
        period: lines::at(given, 6),
        osc: lines::at(given, 7),
        dac: lines::at(given, 8),
        swing: lines::at(given, 9),
    }
}

// spi is 0: of a line a call has one number, whatever it stands for (`interfaced`).
fn interface(number: usize) -> Interface
    ensures { result ≡ interface_of number }
{
    if number == 0 {
        return Interface::Spi;
    }
    Interface::Uart
}

// A command, with the data that stand for what the call is given.
fn send(s: Session, kind: Kind, given: &[u8], out: &mut [u8]) -> Outcome
    ensures { Meets s (request (command kind (data_for kind given.now)) out.old) result out.new }
{
    if kinds::are_same(kind, Kind::RdReg) {
        return requests::read_register(s, lines::at(given, 0), out);
    }
    requests::request(s, kind, given, out)
}

// An inventory of so many slots.
fn ask(s: Session, slots: Slots, out: &mut [u8]) -> Outcome
    ensures { Meets s (request (send_recv (slots_asked.request slots)) out.old) result out.new }
{
    let mut payload = [0u8; 3];
    let _ = stakes::write(slots, &mut payload);
    requests::send_recv(s, &payload, out)
}

// An inventory by its number of slots. Of another number there is no request: bytes stand for it that no SendRecv takes, so that the session
// refuses it, in the order of its own checks (`OtherSlots`).
fn inventory(s: Session, number: usize, out: &mut [u8]) -> Outcome
    ensures { Meets s (request (send_recv (request_for number)) out.old) result out.new }
{
    if number == 1 {
        return ask(s, Slots::One, out);
    }
    if number == 16 {
        return ask(s, Slots::Sixteen, out);
    }
    requests::send_recv(s, &[0; 256], out)
}

// A call, its number and its bytes go apart, here and in the desk: they are what reading found, taken apart once.
fn act(what: Act, s: Session, number: usize, given: &[u8], out: &mut [u8]) -> Outcome
    ensures { Is (acted s what number given.now out.old) result out.new }
{
    match what {
        Act::PowerOn => session::power_on(s, interface(number)),
        Act::Pulse => session::pulse(s),
        Act::Sends(kind) => send(s, kind, given, out),
        Act::Inventory => inventory(s, number, out),
        Act::Reset => requests::reset(s, out),
        Act::Poll => requests::poll(s, out),
        Act::Read => requests::read(s, number, out),
        Act::Calibrate => calibrating::calibrate(s, plan(number, given), out),
        Act::Next => calibrating::calibrate_next(s, out),
    }
}

// An act on the first n bytes of the output. The front that is lent is a line here, in feed_on and in board; a closure over it would be no shorter.
#[tactic(auto, using(std::proofs::lemmas::List::take_min, std::proofs::lemmas::List::drop_min))]
pub fn act_on(
    what: Act,
    s: Session,
    number: usize,
    given: &[u8],
    out: &mut [u8],
    n: usize,
) -> Outcome
    ensures { Is (on_front n out.old (λ front. acted s what number given.now front)) result out.new }
{
    let n = n.min(out.len());
    act(what, s, number, given, &mut out[..n])
}

// A piece of the awaited reply, with the first n bytes of the reply room.
#[tactic(auto, using(std::proofs::lemmas::List::take_min, std::proofs::lemmas::List::drop_min))]
pub fn feed_on(s: Session, piece: &[u8], room: &mut [u8], n: usize) -> Outcome
    ensures { Is (on_front n room.old (λ front. step s (feed piece.now front))) result room.new }
{
    let n = n.min(room.len());
    pieces::feed(s, piece, &mut room[..n])
}
