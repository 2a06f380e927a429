// Pairs of hex digits and decimal numbers, read off a line. Every function answers for every input.

#![tactic(auto)]

ghost use Rattle.std.specs.Prelude.{◌≡◌, true, ◌≤◌, length};
ghost use Rattle.words.specs.Contract.{Is};
ghost use Rattle.digits.specs.Hex.{digit, byte_of, read_bytes};
ghost use Rattle.digits.specs.Decimal.{are_decimal, value_of, number_of, read_number};

// What a hex digit stands for. No to_digit, which is of a char.
fn digit(byte: u8) -> Option<u8>
    ensures { result ≡ digit byte }
{
    match byte {
        b'0'..=b'9' => Some(byte - b'0'),
        b'A'..=b'F' => Some(byte - b'A' + 10),
        b'a'..=b'f' => Some(byte - b'a' + 10),
        _ => None,
    }
}

// The byte that two digits spell.
fn byte_of(high: u8, low: u8) -> Option<u8>
    ensures { result ≡ byte_of high low }
{
    Some(digit(high)? * 16 + digit(low)?)
}

// Reads pairs of hex digits up to the end of the line, to the front of bytes: how many there are, or the place that is no pair or has no room.
// A place is all that is known here of what is wrong, and all that the error has: as many bytes before the line's end as are left. Blanks between
// pairs are of any number, so that no iterator of pairs would do.
pub fn read_bytes(line: &[u8], from: usize, bytes: &mut [u8]) -> Result<usize, usize>
    ensures { Is (read_bytes line.now from bytes.old) result bytes.new }
{
    let mut rest = lines::after(line, from);
    let mut n = 0;
    loop {
        rest = lines::past_blanks(rest);
        match rest {
            [] => return Ok(n),
            [high, low, ..] => {
                let Some(value) = byte_of(*high, *low) else {
                    return Err(line.len() - rest.len());
                };
                if bytes.len() <= n {
                    return Err(line.len() - rest.len());
                }
                bytes[n] = value;
                n += 1;
                rest = &rest[2..];
            }
            _ => return Err(line.len() - rest.len()),
        }
    }
}

// A number read, and the place behind it.
#[derive(Clone, Copy)]
pub struct Number {
    pub value: usize,
    pub next: usize,
}

fn are_decimal(word: &[u8]) -> bool
    ensures { result ≡ are_decimal word.now }
{
    word.iter().all(|byte| byte.is_ascii_digit())
}

// The value of up to nine digits. No parse, which is of a &str.
fn value_of(word: &[u8]) -> usize
    requires digits { are_decimal word.now ≡ true }
    requires at_most_nine { length word.now ≤ 9 }
    ensures { result ≡ value_of word.now }
{
    let mut value: usize = 0;
    for byte in word {
        value = value * 10 + (*byte - b'0') as usize;
    }
    value
}

// The number that a word spells, if it has one to nine digits; otherwise the place where it starts.
fn number_of(word: &[u8], start: usize, next: usize) -> Result<Number, usize>
    ensures { result ≡ number_of word.now start next }
{
    if word.is_empty() || 9 < word.len() || !are_decimal(word) {
        return Err(start);
    }
    Ok(Number {
        value: value_of(word),
        next,
    })
}

// Reads a decimal number of one to nine digits, or tells the place of the word that is none.
pub fn read_number(line: &[u8], from: usize) -> Result<Number, usize>
    ensures { result ≡ read_number line.now from }
{
    let start = lines::skip(line, from);
    let next = lines::word_end(line, start);
    number_of(lines::after(lines::front(line, next), start), start, next)
}
