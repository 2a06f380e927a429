// What is wrong with a line, where, and what was expected, as text. Lines and columns are counted from 1.

#![tactic(auto)]

ghost use Rattle.faults.specs.Faults.{column, where_text, given, what_text, fault_text};
ghost use Rattle.text.specs.Adding.{Adds};

use calls::{Fault, Wrong};
use text::Text;

fn put_column(text: &mut Text, place: usize)
    ensures { Adds text.old (column place) text.new }
{
    if place < usize::MAX {
        text.put_number(place as u64 + 1);
    }
}

fn put_where(text: &mut Text, line: u64, place: usize)
    ensures { Adds text.old (where_text line place) text.new }
{
    text.put_count(b"error: line", line);
    text.put(b", column");
    put_column(text, place);
    text.put(b": ");
}

// A number that was given, and one that was expected.
fn put_given(text: &mut Text, what: &[u8], number: usize, expected: &[u8], wanted: usize)
    ensures { Adds text.old (given what.now number expected.now wanted) text.new }
{
    text.put_count(what, number as u64);
    text.put_count(expected, wanted as u64);
}

fn put_what(text: &mut Text, fault: Fault)
    ensures { Adds text.old (what_text fault) text.new }
{
    match fault {
        Fault::TooLong => text.put(b"a line too long; expected at most 4096 bytes"),
        Fault::Unknown => text.put(b"no such call; expected one that help lists"),
        Fault::Longer => text.put(b"more than the call takes; expected the line's end"),
        Fault::NoPair => text.put(b"no byte; expected pairs of hex digits"),
        Fault::NoNumber => text.put(b"no number; expected one to nine decimal digits"),
        Fault::NoInterface => text.put(b"no interface; expected spi or uart"),
        Fault::Count { given, wanted } => {
            put_given(text, b"bytes given:", given, b"; expected", wanted)
        }
        Fault::NoProtocol => text.put(b"no protocol; expected its byte, then the parameters"),
        Fault::NoCode => text.put(b"no code; expected the command's byte, then the answer"),
        Fault::Above { given, greatest } => {
            put_given(text, b"too great:", given, b"; expected at most", greatest)
        }
    }
}

// Puts what is wrong at a place of a line, by its number.
pub fn put(text: &mut Text, line: u64, wrong: Wrong)
    ensures { Adds text.old (fault_text line wrong.place wrong.fault) text.new }
{
    put_where(text, line, wrong.place);
    put_what(text, wrong.fault);
}
