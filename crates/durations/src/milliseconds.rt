// Milliseconds as text.
ghost use Rattle.std.specs.Prelude.{◌≡◌, ◌<◌, length};
ghost use Rattle.lines.specs.Lines.{fore};
ghost use Rattle.text.specs.Adding.{Adds};
ghost use Rattle.durations.specs.Milliseconds.{fraction, milliseconds_text, ticks_of, Countable};

use text::Text;

// A millisecond in ticks.
const TICKS: f32 = 32.0;

// The ticks that so many milliseconds are.
pub(crate) fn ticks(ms: f32) -> u64
    requires { Countable ms }
    ensures { result ≡ ticks_of ms }
{
    std::num::truncating_f32_to_u64(ms * TICKS)
}

// Puts the digits of so many ticks behind the point, and answers how many there are.
fn fraction(rest: u64, digits: &mut [u8]) -> usize
    requires { rest < 32 }
    ensures { fore digits.new result ≡ fraction (length digits.old) rest }
{
    let mut rest = rest;
    for (i, digit) in digits.iter_mut().enumerate() {
        if rest == 0 {
            return i;
        }
        *digit = b'0' + (rest * 10 / 32) as u8;
        rest = rest * 10 % 32;
    }
    digits.len()
}

// Puts a blank and ticks as milliseconds in decimal.
pub(crate) fn put(text: &mut Text, ticks: u64)
    ensures { Adds text.old (milliseconds_text ticks) text.new }
{
    text.put_number(ticks / 32);
    let mut digits = [0u8; 5];
    let count = fraction(ticks % 32, &mut digits);
    if count == 0 {
        return;
    }
    text.put(b".");
    text.put(lines::front(&digits, count));
}
