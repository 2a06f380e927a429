// Parts, bytes and numbers, written into a text at its place. Every function answers for every input.

#![tactic(auto)]

ghost use Rattle.std.specs.Prelude.{◌≡◌, [], ◌∷◌, ◌<◌, ◌≤◌, ◌+◌, length};
ghost use Rattle.std.proofs.Math.Seq.{paste};
ghost use Rattle.text.specs.Adding.{Adds};
ghost use Rattle.text.specs.Writing.{glyph, hex, hexes, number};

// A lent buffer, and the place where the next part goes. What is written here is no Display: a formatter has no contract, and each byte is promised.
#[derive(Drop)]
pub struct Text<'a> {
    pub bytes: &'a mut [u8],
    pub at: usize,
}

// An upper-case digit.
fn glyph(digit: u8) -> u8
    requires { digit < 16 }
    ensures { result ≡ glyph digit }
{
    if digit < 10 {
        b'0' + digit
    } else {
        b'A' + (digit - 10)
    }
}

// A blank and a byte as two digits.
fn hex(byte: u8) -> [u8; 3]
    ensures { result ≡ hex byte }
{
    [b' ', glyph(byte / 16), glyph(byte % 16)]
}

// Lays a part at a place where there is room for it.
fn lay(part: &[u8], text: &mut [u8], at: usize)
    requires { at + length part.now ≤ length text.old }
    ensures { text.new ≡ paste text.old at part.now (length part.now) }
{
    text[at..at + part.len()].copy_from_slice(part);
}

impl Text<'_> {
    // Puts a part, where it fits, and moves behind it.
    pub fn put(&mut self, part: &[u8])
        ensures { Adds self.old (part.now ∷ []) self.new }
    {
        let Some(end) = self.at.checked_add(part.len()) else {
            return;
        };
        if self.bytes.len() < end {
            return;
        }
        lay(part, self.bytes, self.at);
        self.at = end;
    }

    // Puts a blank and a byte as two digits.
    pub fn put_byte(&mut self, byte: u8)
        ensures { Adds self.old (hex byte ∷ []) self.new }
    {
        self.put(&hex(byte));
    }

    // Puts bytes one behind the other, as far as there is room. How many find room is reckoned once, since long answers are bytes.
    pub fn put_bytes(&mut self, bytes: &[u8])
        ensures { Adds self.old (hexes bytes.now) self.new }
    {
        let room = self.bytes.len().saturating_sub(self.at);
        let fitting = &bytes[..bytes.len().min(room / 3)];
        let text = &mut *self.bytes;
        let mut at = self.at;
        for byte in fitting {
            lay(&hex(*byte), text, at);
            at += 3;
        }
        self.at = at;
    }

    // Puts a blank and a decimal number.
    pub fn put_number(&mut self, n: u64)
        ensures { Adds self.old (number n) self.new }
    {
        let mut digits = [0u8; 20];
        let count = io::decimal(n, &mut digits);
        self.put(b" ");
        self.put(&digits[..count]);
    }

    // Puts a name, and a number behind it.
    pub fn put_count(&mut self, name: &[u8], n: u64)
        ensures { Adds self.old (name.now ∷ number n) self.new }
    {
        self.put(name);
        self.put_number(n);
    }
}
