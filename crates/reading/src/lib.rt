// A line read as a call: its name, and what the call takes behind it.

#![tactic(auto)]

ghost use Rattle.std.specs.Prelude.{◌≡◌};
ghost use Rattle.words.specs.Contract.{Is};
ghost use Rattle.digits.specs.Decimal.{read_number};
ghost use Rattle.reading.specs.Asking.{ended, interfaced, any, counted, led, numbered, read_shape, asked};

pub use calls::LONGEST;
use calls::{Asked, Fault, Shape, Verb, Wrong};

// The call, if the line ends here. A place goes with the line and not with a rest of it, here and below: what is wrong is told by its place in the line.
// A call and its number go apart until the line is read: before that there is no number.
fn ended(call: Verb, number: usize, line: &[u8], from: usize) -> Result<Asked, Wrong>
    ensures { result ≡ ended call number line.now from }
{
    let next = lines::skip(line, from);
    if next < line.len() {
        return Err(Wrong {
            place: next,
            fault: Fault::Longer,
        });
    }
    Ok(Asked {
        call,
        number,
        count: 0,
    })
}

// spi is 0, uart is 1 (`acts::interface`).
fn interface(call: Verb, line: &[u8], from: usize) -> Result<Asked, Wrong>
    ensures { result ≡ interfaced call line.now from }
{
    let start = lines::skip(line, from);
    let end = lines::word_end(line, start);
    if lines::is_word(line, start, end, b"spi") {
        return ended(call, 0, line, end);
    }
    if lines::is_word(line, start, end, b"uart") {
        return ended(call, 1, line, end);
    }
    Err(Wrong {
        place: start,
        fault: Fault::NoInterface,
    })
}

fn any(
    call: Verb,
    number: usize,
    line: &[u8],
    from: usize,
    bytes: &mut [u8],
) -> Result<Asked, Wrong>
    ensures { Is (any call number line.now from bytes.old) result bytes.new }
{
    match digits::read_bytes(line, from, bytes) {
        Ok(count) => Ok(Asked {
            call,
            number,
            count,
        }),
        Err(place) => Err(Wrong {
            place,
            fault: Fault::NoPair,
        }),
    }
}

// The call, if it has so many bytes from a place on.
fn exactly(asked: Asked, from: usize, wanted: usize) -> Result<Asked, Wrong>
    ensures { result ≡ counted from wanted asked }
{
    if asked.count != wanted {
        return Err(Wrong {
            place: from,
            fault: Fault::Count {
                given: asked.count,
                wanted,
            },
        });
    }
    Ok(asked)
}

// The call, if it has a byte at a place, and otherwise what is missing there.
fn led(asked: Asked, from: usize, missing: Fault) -> Result<Asked, Wrong>
    ensures { result ≡ led from missing asked }
{
    if asked.count == 0 {
        return Err(Wrong {
            place: from,
            fault: missing,
        });
    }
    Ok(asked)
}

fn numbered(
    call: Verb,
    line: &[u8],
    from: usize,
    greatest: usize,
    wanted: usize,
    bytes: &mut [u8],
) -> Result<Asked, Wrong>
    ensures { Is (numbered call greatest wanted line.now from bytes.old (read_number line.now from)) result bytes.new }
{
    match digits::read_number(line, from) {
        Ok(read) => {
            if greatest < read.value {
                return Err(Wrong {
                    place: from,
                    fault: Fault::Above {
                        given: read.value,
                        greatest,
                    },
                });
            }
            if wanted == 0 {
                return ended(call, read.value, line, read.next);
            }
            let start = lines::skip(line, read.next);
            exactly(any(call, read.value, line, start, bytes)?, start, wanted)
        }
        Err(place) => Err(Wrong {
            place,
            fault: Fault::NoNumber,
        }),
    }
}

// What a call takes, read from a place on that is no blank.
fn take(
    call: Verb,
    shape: Shape,
    line: &[u8],
    from: usize,
    bytes: &mut [u8],
) -> Result<Asked, Wrong>
    ensures { Is (read_shape call shape line.now from bytes.old) result bytes.new }
{
    match shape {
        Shape::Nothing => ended(call, 0, line, from),
        Shape::Interface => interface(call, line, from),
        Shape::Numbered { greatest, wanted } => numbered(call, line, from, greatest, wanted, bytes),
        Shape::Exactly { wanted } => exactly(any(call, 0, line, from, bytes)?, from, wanted),
        Shape::Led { missing } => led(any(call, 0, line, from, bytes)?, from, missing),
        Shape::Any => any(call, 0, line, from, bytes),
    }
}

// The call of a line, with its bytes at the front of a buffer.
pub fn read(line: &[u8], bytes: &mut [u8]) -> Result<Asked, Wrong>
    ensures { Is (asked line.now bytes.old) result bytes.new }
{
    let start = lines::skip(line, 0);
    let end = lines::word_end(line, start);
    let word = lines::after(lines::front(line, end), start);
    let Some((call, shape)) = calls::call_of(word) else {
        return Err(Wrong {
            place: start,
            fault: Fault::Unknown,
        });
    };
    take(call, shape, line, lines::skip(line, end), bytes)
}
