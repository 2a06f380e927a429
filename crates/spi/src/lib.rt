// SPI's own forms: reset, poll and read, which UART has not, and what comes back.

#![tactic(auto)]

ghost use Rattle.model.specs.Frames.{Transfer, Writes, Receives, Flagged};

use model::{Flags, Interface, Refusal};

// The greatest number of bytes that one read takes.
pub const GREATEST_READ: usize = 530;

// Each form has a function of its own, here and below, whose contract names its transfer.
pub fn reset(interface: Interface, out: &mut [u8]) -> Result<usize, Refusal>
    ensures { Writes interface Transfer.reset out.old result out.new }
{
    match interface {
        Interface::Spi => frames::put(b"\x01", b"", b"", out),
        Interface::Uart => Err(Refusal::Invalid),
    }
}

pub fn poll(interface: Interface, out: &mut [u8]) -> Result<usize, Refusal>
    ensures { Writes interface Transfer.poll out.old result out.new }
{
    match interface {
        Interface::Spi => frames::put(b"\x03", b"\x03", b"", out),
        Interface::Uart => Err(Refusal::Invalid),
    }
}

// A read over SPI: 02 and n bytes 00.
fn read_by_spi(n: usize, out: &mut [u8]) -> Result<usize, Refusal>
    ensures { Writes Interface.Spi (Transfer.read n) out.old result out.new }
{
    if n < 1 || GREATEST_READ < n {
        return Err(Refusal::Invalid);
    }
    let zeros = [0u8; GREATEST_READ];
    frames::put(b"\x02", &zeros[..n], b"", out)
}

pub fn read(interface: Interface, n: usize, out: &mut [u8]) -> Result<usize, Refusal>
    ensures { Writes interface (Transfer.read n) out.old result out.new }
{
    match interface {
        Interface::Spi => read_by_spi(n, out),
        Interface::Uart => Err(Refusal::Invalid),
    }
}

// What is left of the bytes that came back of a poll or a read: the first is dropped.
pub fn received(transfer: &[u8]) -> &[u8]
    ensures { Receives transfer.now result.now }
{
    match transfer {
        [] => transfer,
        [_, rest @ ..] => rest,
    }
}

pub fn flags(byte: u8) -> Flags
    ensures { Flagged byte result }
{
    Flags {
        read: byte & 0x08 != 0,
        send: byte & 0x04 != 0,
    }
}
