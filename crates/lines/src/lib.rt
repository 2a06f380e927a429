// Words of a line, found at places. Every function answers for every input.

#![tactic(auto)]

ghost use Rattle.std.specs.Prelude.{◌≡◌, ◌≤◌, ℕ, not, length};
ghost use Rattle.std.specs.List.{prefix_len};
ghost use Rattle.lines.specs.Lines.{fore, rest, byte_at, blank, blanks, skipped, word_end, same, is_word};

// The first n bytes, or all where there are fewer.
#[tactic(auto, using(std::proofs::lemmas::List::take_min))]
pub fn front(bytes: &[u8], n: usize) -> &[u8]
    ensures { result.now ≡ fore bytes.now n }
{
    &bytes[..n.min(bytes.len())]
}

// The bytes from a place on, none past the end.
#[tactic(auto, using(std::proofs::lemmas::List::drop_min))]
pub fn after(bytes: &[u8], from: usize) -> &[u8]
    ensures { result.now ≡ rest bytes.now from }
{
    &bytes[from.min(bytes.len())..]
}

// The byte at a place, a blank past the end, as a line is read; `settings` reads a missing byte of data as 0.
pub fn at(bytes: &[u8], i: usize) -> u8
    ensures { result ≡ byte_at bytes.now i }
{
    bytes.get(i).copied().unwrap_or(b' ')
}

fn is_blank(byte: u8) -> bool
    ensures { result ≡ blank byte }
{
    byte == b' ' || byte == b'\t'
}

// How many blanks come first.
fn blanks(bytes: &[u8]) -> usize
    ensures { (result ≡ prefix_len blank bytes.now) × (result ≤ length bytes.now) }
{
    bytes.iter().take_while(|byte| is_blank(**byte)).count()
}

// How many bytes come before the first blank. Not one function over a test: each has its own word, `prefix_len` of it, in its contract.
fn word_length(bytes: &[u8]) -> usize
    ensures { (result ≡ prefix_len (λ (x : ℕ). not (blank x)) bytes.now) × (result ≤ length bytes.now) }
{
    bytes.iter().take_while(|byte| !is_blank(**byte)).count()
}

// What comes behind the first blanks.
#[tactic(auto, using(crate::proofs::Lines::blanks_first))]
pub fn past_blanks(bytes: &[u8]) -> &[u8]
    ensures { result.now ≡ rest bytes.now (blanks bytes.now) }
{
    &bytes[blanks(bytes)..]
}

// The first place from one on that is no blank.
#[tactic(auto, using(crate::proofs::Lines::blanks_first))]
pub fn skip(line: &[u8], from: usize) -> usize
    ensures { result ≡ skipped line.now from }
{
    from + blanks(after(line, from))
}

// The end of the word that starts at a place.
#[tactic(auto, using(crate::proofs::Lines::word_first))]
pub fn word_end(line: &[u8], from: usize) -> usize
    ensures { result ≡ word_end line.now from }
{
    from + word_length(after(line, from))
}

// Whether two texts are the same, in the word by which names are found (`same`).
pub fn are_same(part: &[u8], word: &[u8]) -> bool
    ensures { result ≡ same part.now word.now }
{
    part == word
}

// Whether the line has the word from one place to another.
pub fn is_word(line: &[u8], from: usize, end: usize, word: &[u8]) -> bool
    ensures { result ≡ is_word line.now from end word.now }
{
    after(front(line, end), from) == word
}
