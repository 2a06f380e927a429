// The table of registers: what is read and written there, with which values, and the look-up that its rows share.
ghost use Rattle.std.specs.Prelude.{◌≡◌};
ghost use Rattle.model.specs.Registers.{is_read, is_index, is_tuning, is_window};
ghost use Rattle.registers.specs.LookUp.{ranges, covered, listed};
ghost use Rattle.registers.specs.declared.ranges.Access.TheVariants.{Write};

#[derive(Clone, Copy, PartialEq, Eq)]
pub enum Access {
    Read,
    Write,
}

// A row: the register, the least and the greatest value, read or write.
#[derive(Clone, Copy)]
pub struct Range(pub u8, pub u8, pub u8, pub Access);

const RANGES: [Range; 32] = [
    // the wake-up event register and ARC_B, whatever they hold
    Range(0x62, 0x00, 0xFF, Access::Read),
    Range(0x69, 0x00, 0xFF, Access::Read),
    // the index, which is that of ARC_B
    Range(0x68, 0x01, 0x01, Access::Write),
    // the timer window
    Range(0x3A, 0x50, 0x60, Access::Write),
    // ARC_B: a modulation index, and a gain
    Range(0x69, 0x10, 0x11, Access::Write),
    Range(0x69, 0x13, 0x13, Access::Write),
    Range(0x69, 0x17, 0x17, Access::Write),
    Range(0x69, 0x1F, 0x1F, Access::Write),
    Range(0x69, 0x20, 0x21, Access::Write),
    Range(0x69, 0x23, 0x23, Access::Write),
    Range(0x69, 0x27, 0x27, Access::Write),
    Range(0x69, 0x2F, 0x2F, Access::Write),
    Range(0x69, 0x30, 0x31, Access::Write),
    Range(0x69, 0x33, 0x33, Access::Write),
    Range(0x69, 0x37, 0x37, Access::Write),
    Range(0x69, 0x3F, 0x3F, Access::Write),
    Range(0x69, 0x40, 0x41, Access::Write),
    Range(0x69, 0x43, 0x43, Access::Write),
    Range(0x69, 0x47, 0x47, Access::Write),
    Range(0x69, 0x4F, 0x4F, Access::Write),
    Range(0x69, 0x50, 0x51, Access::Write),
    Range(0x69, 0x53, 0x53, Access::Write),
    Range(0x69, 0x57, 0x57, Access::Write),
    Range(0x69, 0x5F, 0x5F, Access::Write),
    Range(0x69, 0x60, 0x61, Access::Write),
    Range(0x69, 0x63, 0x63, Access::Write),
    Range(0x69, 0x67, 0x67, Access::Write),
    Range(0x69, 0x6F, 0x6F, Access::Write),
    Range(0x69, 0xD0, 0xD1, Access::Write),
    Range(0x69, 0xD3, 0xD3, Access::Write),
    Range(0x69, 0xD7, 0xD7, Access::Write),
    Range(0x69, 0xDF, 0xDF, Access::Write),
];

// A row has the register that is asked for, with all the values, to be read or written.
fn covers(row: Range, asked: Range) -> bool
    ensures { result ≡ covered row asked }
{
    row.0 == asked.0 && row.1 <= asked.1 && asked.2 <= row.2 && row.3 == asked.3
}

// All rows. The table is a const, by value: the form that document 01 names.
fn table() -> [Range; 32]
    ensures { result ≡ ranges }
{
    RANGES
}

// Some row does.
fn is_listed(asked: Range) -> bool
    ensures { result ≡ listed ranges asked }
{
    table().iter().any(|row| covers(*row, asked))
}

// A register is given a value.
fn is_set(register: u8, value: u8) -> bool
    ensures { result ≡ listed ranges (register, value, value, Write) }
{
    is_listed(Range(register, value, value, Access::Write))
}

// A register is read, whatever it holds.
pub fn is_read(register: u8) -> bool
    ensures { result ≡ is_read register }
{
    is_listed(Range(register, 0x00, 0xFF, Access::Read))
}

// The index is set to a value.
pub fn is_index(value: u8) -> bool
    ensures { result ≡ is_index value }
{
    is_set(0x68, value)
}

// ARC_B is given a value.
pub fn is_tuning(value: u8) -> bool
    ensures { result ≡ is_tuning value }
{
    is_set(0x69, value)
}

// The timer window is given a value.
pub fn is_window(value: u8) -> bool
    ensures { result ≡ is_window value }
{
    is_set(0x3A, value)
}
