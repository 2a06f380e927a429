// The waiting times that Idle settings stand for, in ticks and in milliseconds. A tick is 1 / 32 ms.

#![tactic(auto)]

ghost use Rattle.std.specs.Prelude.{◌≡◌, ℕ, ◌*◌, ◌^◌, ◌≤◌};
ghost use Rattle.model.specs.Frames.{prescaler};
ghost use Rattle.model.specs.Times.{milliseconds, exactly, ticks, times, Timed, Waits};

use model::{Refusal, Settings, Ticks, Times, Wait, Waited};

// A tick in milliseconds.
const TICK: f32 = 0.03125;

// 2 to the prescaler: t_L in ticks.
fn power(source: u8) -> u16
    ensures { (result ≡ 2 ^ prescaler source) × (result ≤ 8) }
{
    1u16 << settings::prescaler(source)
}

fn ticks(s: Settings) -> Ticks
    ensures { result ≡ ticks s }
{
    let low = power(s.source) as u32;
    let reference = 256 * low;
    let inactive = (s.period as u32 + 1) * reference;
    Ticks {
        low,
        reference,
        inactive,
        timeout: (s.sleep as u32 + 1) * inactive,
        osc: s.osc as u32 * low,
        dac: s.dac as u32 * low,
    }
}

// A factor times a unit that is a whole number of ticks exactly.
#[tactic(auto, using(crate::proofs::Product::by))]
fn scaled(factor: u16, unit: f32) -> f32
    ensures { (n : ℕ) → exactly unit n → result ≡ milliseconds (factor * n) }
{
    factor as f32 * unit
}

// The same in f32, product by product: the form that document 01 names.
fn times(s: Settings) -> Times
    ensures { result ≡ times s }
{
    let low = scaled(power(s.source), TICK);
    let reference = scaled(256, low);
    let inactive = scaled(s.period as u16 + 1, reference);
    Times {
        low,
        reference,
        inactive,
        timeout: scaled(s.sleep as u16 + 1, inactive),
        osc: scaled(s.osc as u16, low),
        dac: scaled(s.dac as u16, low),
    }
}

// The times of allowed settings, in ticks and in milliseconds.
pub fn times_of(s: Settings) -> Result<(Ticks, Times), Refusal>
    ensures { Timed s result }
{
    if !settings::is_allowed(s) {
        return Err(Refusal::Invalid);
    }
    Ok((ticks(s), times(s)))
}

// Without end where bit 0 of WU source is clear.
pub fn wait_of(s: Settings) -> Waited
    ensures { Waits s result }
{
    if !settings::is_allowed(s) {
        return Err(Refusal::Invalid);
    }
    if s.source % 2 == 0 {
        return Ok(Wait::Endless);
    }
    Ok(Wait::After(times(s).timeout))
}
