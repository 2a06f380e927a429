// What stakes answer to an inventory, taken apart, and the request that asks them (specs/Stakes).

#![tactic(auto)]

ghost use Rattle.std.specs.Prelude.{◌≡◌};
ghost use Rattle.words.specs.Contract.{Is};
ghost use Rattle.stakes.specs.Stakes.{number_of, uid_at, apart, is_of, read, write};

use model::Refusal;
use settings::at;

// A UID in the order in which people write it; the definitions name each of its bytes.
#[derive(Clone, Copy)]
pub struct Uid {
    pub first: u8,
    pub second: u8,
    pub third: u8,
    pub fourth: u8,
    pub fifth: u8,
    pub sixth: u8,
    pub seventh: u8,
    pub eighth: u8,
}

// The two bytes of a CRC.
#[derive(Clone, Copy)]
pub struct Crc {
    pub low: u8,
    pub high: u8,
}

// An inventory answer, taken apart.
#[derive(Clone, Copy)]
pub struct Stake {
    pub flags: u8,
    pub dsfid: u8,
    pub uid: Uid,
    pub crc: Crc,
    pub status: u8,
}

// What bytes are refused for that are no such answer, with the paper's numbers.
#[derive(Clone, Copy)]
pub enum Unread {
    // not 13 bytes
    OtherLength = 13,
    WrongCrc = 14,
    // not zero
    WrongStatus = 15,
}

// How many slots an inventory has.
#[derive(Clone, Copy)]
pub enum Slots {
    One,
    Sixteen,
}

// The number of a refusal.
pub fn number_of(refusal: Unread) -> u8
    ensures { result ≡ number_of refusal }
{
    refusal as u8
}

// The eight bytes of the UID are sent lowest first.
fn uid_at(payload: &[u8]) -> Uid
    ensures { result ≡ uid_at payload.now }
{
    Uid {
        first: at(payload, 9),
        second: at(payload, 8),
        third: at(payload, 7),
        fourth: at(payload, 6),
        fifth: at(payload, 5),
        sixth: at(payload, 4),
        seventh: at(payload, 3),
        eighth: at(payload, 2),
    }
}

fn apart(payload: &[u8]) -> Stake
    ensures { result ≡ apart payload.now }
{
    Stake {
        flags: at(payload, 0),
        dsfid: at(payload, 1),
        uid: uid_at(payload),
        crc: Crc {
            low: at(payload, 10),
            high: at(payload, 11),
        },
        status: at(payload, 12),
    }
}

// A CRC is that of bytes.
fn is_of(crc: Crc, bytes: &[u8]) -> bool
    ensures { result ≡ is_of crc bytes.now }
{
    crc::of(bytes).to_le_bytes() == [crc.low, crc.high]
}

// Takes the data of a SendRecv reply apart.
pub fn read(payload: &[u8]) -> Result<Stake, Unread>
    ensures { result ≡ read payload.now }
{
    if payload.len() != 13 {
        return Err(Unread::OtherLength);
    }
    let stake = apart(payload);
    if !is_of(stake.crc, &payload[..10]) {
        return Err(Unread::WrongCrc);
    }
    if stake.status != 0x00 {
        return Err(Unread::WrongStatus);
    }
    Ok(stake)
}

// Writes the inventory request, the data of a SendRecv.
pub fn write(slots: Slots, out: &mut [u8]) -> Result<usize, Refusal>
    ensures { Is (write slots out.old) result out.new }
{
    let flags = match slots {
        Slots::One => 0x26,
        Slots::Sixteen => 0x06,
    };
    frames::put(&[flags, 0x01, 0x00], b"", b"", out)
}
