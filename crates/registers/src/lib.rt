// The data of RdReg and WrReg, judged by the table of registers.

#![tactic(auto)]

pub mod ranges;

ghost use Rattle.std.specs.Prelude.{◌≡◌};
ghost use Rattle.model.specs.Registers.{is_write, sets_index, tunes, sets_window, read_allowed, write_allowed};

use settings::at;

// A register that is read, its size 01, and 00.
pub fn is_read_allowed(payload: &[u8]) -> bool
    ensures { result ≡ read_allowed payload.now }
{
    ranges::is_read(at(payload, 0)) && at(payload, 1) == 0x01 && at(payload, 2) == 0x00
}

// So many data bytes, to an address, with a flag of 00 or 01.
fn is_write(payload: &[u8], count: usize, address: u8) -> bool
    ensures { result ≡ is_write count address payload.now }
{
    payload.len() == count && at(payload, 0) == address && at(payload, 1) <= 0x01
}

// 68 f 01.
fn sets_index(payload: &[u8]) -> bool
    ensures { result ≡ sets_index payload.now }
{
    is_write(payload, 3, 0x68) && ranges::is_index(at(payload, 2))
}

// 68 f 01 and a value of ARC_B.
fn tunes(payload: &[u8]) -> bool
    ensures { result ≡ tunes payload.now }
{
    is_write(payload, 4, 0x68)
        && ranges::is_index(at(payload, 2))
        && ranges::is_tuning(at(payload, 3))
}

// 3A f, a timer window, and 04.
fn sets_window(payload: &[u8]) -> bool
    ensures { result ≡ sets_window payload.now }
{
    is_write(payload, 4, 0x3A) && ranges::is_window(at(payload, 2)) && at(payload, 3) == 0x04
}

// One of these.
pub fn is_write_allowed(payload: &[u8]) -> bool
    ensures { result ≡ write_allowed payload.now }
{
    sets_index(payload) || tunes(payload) || sets_window(payload)
}
