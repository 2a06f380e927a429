// The CRC of ISO/IEC 15693 tags, a byte at a time by a table of remainders.

#![tactic(auto)]

mod table;

ghost use Rattle.std.specs.Prelude.{◌≡◌};
ghost use Rattle.crc.specs.Crc.{looked, crc_of, crc_by};

// A byte goes into the register.
fn look(remainders: &[u16; 256], byte: u8, register: u16) -> u16
    ensures { result ≡ looked remainders.now byte register }
{
    register / 256 ^ remainders[((register ^ byte as u16) % 256) as usize]
}

fn by_table(remainders: &[u16; 256], bytes: &[u8]) -> u16
    ensures { result ≡ crc_by remainders.now bytes.now }
{
    !bytes
        .iter()
        .fold(0xFFFF, |register, byte| look(remainders, *byte, register))
}

pub fn of(bytes: &[u8]) -> u16
    ensures { result ≡ crc_of bytes.now }
{
    let remainders = table::remainders();
    by_table(&remainders, bytes)
}
