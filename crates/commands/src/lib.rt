// The command reader: the first frame of a part, or one that fills its part exactly.

#![tactic(auto)]

ghost use Rattle.std.specs.Prelude.{◌≡◌, length};
ghost use Rattle.model.specs.Frames.{kind_of, part as part_of, taken, read_counted, Reads, ReadsFirst};

use model::{Frame, Refusal};
use words::Part;

// A frame by its code and its data, which stand in the part from an index on.
fn taken(code: u8, start: usize, payload: &[u8]) -> Result<Frame, Refusal>
    ensures { result ≡ taken (kind_of code) (part_of start (length payload.now)) payload.now }
{
    match kinds::kind_of(code) {
        Some(kind) if kinds::is_permitted(kind, payload) => Ok(Frame {
            kind,
            payload: Part {
                start,
                count: payload.len(),
            },
        }),
        _ => Err(Refusal::Invalid),
    }
}

// A frame by its code and what follows it: the length, and so many data.
fn read_counted(code: u8, rest: &[u8]) -> Result<Frame, Refusal>
    ensures { result ≡ read_counted code rest.now }
{
    match rest {
        [count, behind @ ..] if *count as usize <= behind.len() => {
            taken(code, 2, &behind[..*count as usize])
        }
        _ => Err(Refusal::Invalid),
    }
}

// The frame that a part begins with: behind 55 stands no length.
pub fn read_first(part: &[u8]) -> Result<Frame, Refusal>
    ensures { ReadsFirst part.now result }
{
    match part {
        [] => Err(Refusal::Invalid),
        [0x55, ..] => taken(0x55, 1, b""),
        [code, rest @ ..] => read_counted(*code, rest),
    }
}

// One frame that fills its part exactly.
pub fn read_command(part: &[u8]) -> Result<Frame, Refusal>
    ensures { Reads part.now result }
{
    let frame = read_first(part)?;
    if frame.payload.start + frame.payload.count == part.len() {
        return Ok(frame);
    }
    Err(Refusal::Invalid)
}
