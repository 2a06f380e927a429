// Idle settings: the data that they are read from, the field rules, and the prescaler that WU source carries.

#![tactic(auto)]

ghost use Rattle.std.specs.Prelude.{◌≡◌, get_or};
ghost use Rattle.words.specs.Words.{bit};
ghost use Rattle.model.specs.Frames.{source_allowed, Gathers, Allows, Prescales};

use model::{Pair, Settings};

// The byte at an index, 0 for one that is missing.
pub fn at(bytes: &[u8], i: usize) -> u8
    ensures { result ≡ get_or bytes.now i 0 }
{
    bytes.get(i).copied().unwrap_or(0)
}

// The settings whose Idle data these bytes are. No From: an impl stands with its type, and the model has types alone.
pub fn of_data(bytes: &[u8]) -> Settings
    ensures { Gathers bytes.now result }
{
    Settings {
        source: at(bytes, 0),
        enter: Pair {
            first: at(bytes, 1),
            second: at(bytes, 2),
        },
        wake: Pair {
            first: at(bytes, 3),
            second: at(bytes, 4),
        },
        leave: Pair {
            first: at(bytes, 5),
            second: at(bytes, 6),
        },
        period: at(bytes, 7),
        osc: at(bytes, 8),
        dac: at(bytes, 9),
        low: at(bytes, 10),
        high: at(bytes, 11),
        swing: at(bytes, 12),
        sleep: at(bytes, 13),
    }
}

// Bits 2 and 5 are 0, and at least one of bits 0, 1, 3, 4 is set.
fn source_is_allowed(source: u8) -> bool
    ensures { result ≡ source_allowed source }
{
    source & 0x24 == 0 && source & 0x1B != 0
}

// Bit 1: a tag wakes the chip.
fn tag_wakes(source: u8) -> bool
    ensures { result ≡ bit 1 source }
{
    source & 0x02 != 0
}

// The field rules hold.
pub fn is_allowed(s: Settings) -> bool
    ensures { Allows s result }
{
    source_is_allowed(s.source) && (!tag_wakes(s.source) || s.low <= s.high)
}

// Bits 7:6 of WU source.
pub fn prescaler(source: u8) -> u8
    ensures { Prescales source result }
{
    source >> 6
}
