// A line and what is kept from line to line, answered: the session and the lent buffers go in and come back.

#![tactic(auto)]

ghost use Rattle.std.specs.Prelude.{◌≡◌};
ghost use Rattle.words.specs.Contract.{Is};
ghost use Rattle.desk.specs.Desk.{lending, acting, act_told, feeding, feed_told, set_told, obeyed, hearing, answered, Leaves, Hears};

use calls::{Act, Buffer, Fault, Verb, Wrong};
use model::Session;
use text::Text;

// The session, and how much of the output and of the reply room is lent: lengths and no slices, since the buffers stay the caller's from line to
// line (`on_front`).
#[derive(Clone, Copy)]
pub struct Post {
    pub session: Session,
    pub out: usize,
    pub room: usize,
}

// The post after a line, and how long the answer is.
#[derive(Clone, Copy)]
pub struct Done {
    pub post: Post,
    pub n: usize,
}

fn lend(post: Post, buffer: Buffer, n: usize) -> Post
    ensures { result ≡ lending post buffer n }
{
    match buffer {
        Buffer::Out => Post { out: n, ..post },
        Buffer::Room => Post { room: n, ..post },
    }
}

// A session has a name of its own before it is given away, here and below: a named record is copied whole, a field of another one field by field.
fn act(what: Act, post: Post, number: usize, given: &[u8], out: &mut [u8], text: &mut [u8]) -> Done
    ensures { Is (act_told post (acting post what number given.now out.old) text.old) result text.new × (out.new ≡ (acting post what number given.now out.old).bytes) }
{
    let s = post.session;
    let outcome = acts::act_on(what, s, number, given, out, post.out);
    let s = outcome.session;
    let mut text = Text { bytes: text, at: 0 };
    answers::put_answer(&mut text, outcome.answer, out);
    standing::put_state(&mut text, s);
    Done {
        post: Post { session: s, ..post },
        n: text.at,
    }
}

fn feed(post: Post, piece: &[u8], room: &mut [u8], text: &mut [u8]) -> Done
    ensures { Is (feed_told post piece.now (feeding post piece.now room.old) text.old) result text.new × (room.new ≡ (feeding post piece.now room.old).bytes) }
{
    let s = post.session;
    let outcome = acts::feed_on(s, piece, room, post.room);
    let s = outcome.session;
    let mut text = Text { bytes: text, at: 0 };
    answers::put_answer(&mut text, outcome.answer, b"");
    answers::put_used(&mut text, outcome.used, outcome.place, piece, room);
    standing::put_state(&mut text, s);
    Done {
        post: Post { session: s, ..post },
        n: text.at,
    }
}

fn set(post: Post, buffer: Buffer, length: usize, text: &mut [u8]) -> Done
    ensures { Is (set_told post buffer length text.old) result text.new }
{
    let s = post.session;
    let mut text = Text { bytes: text, at: 0 };
    text.put(b"ok");
    standing::put_state(&mut text, s);
    Done {
        post: lend(post, buffer, length),
        n: text.at,
    }
}

// Does what a call says. Each buffer that is lent is a parameter of its own, here, above and below: the contract says of each what it holds at the
// end.
fn obey(
    call: Verb,
    post: Post,
    number: usize,
    given: &[u8],
    out: &mut [u8],
    room: &mut [u8],
    text: &mut [u8],
) -> Done
    ensures { Leaves (obeyed call post number given.now out.old room.old text.old) result out.new room.new text.new }
{
    match call {
        Verb::Acts(what) => act(what, post, number, given, out, text),
        Verb::Feeds => feed(post, given, room, text),
        Verb::Tells(question) => {
            let mut text = Text { bytes: text, at: 0 };
            questions::answer(question, given, &mut text);
            Done { post, n: text.at }
        }
        Verb::Speaks(what) => {
            let mut text = Text { bytes: text, at: 0 };
            board::answer(what, given, out, post.out, &mut text);
            Done { post, n: text.at }
        }
        Verb::Sets(buffer) => set(post, buffer, number, text),
        Verb::Helps => {
            let mut text = Text { bytes: text, at: 0 };
            help::put(&mut text);
            Done { post, n: text.at }
        }
    }
}

// A line read as a call, and obeyed.
fn hear(
    line: &[u8],
    number: u64,
    post: Post,
    bytes: &mut [u8],
    out: &mut [u8],
    room: &mut [u8],
    text: &mut [u8],
) -> Done
    ensures { Hears (hearing line.now number post bytes.old out.old room.old text.old) result bytes.new out.new room.new text.new }
{
    match reading::read(line, bytes) {
        Ok(asked) => obey(
            asked.call,
            post,
            asked.number,
            lines::front(bytes, asked.count),
            out,
            room,
            text,
        ),
        Err(wrong) => {
            let mut text = Text { bytes: text, at: 0 };
            faults::put(&mut text, number, wrong);
            Done { post, n: text.at }
        }
    }
}

// How many bytes a line has at most.
pub const LONGEST: usize = 4096;

// The answer to a line, by its number in the script, at the front of the text, with no line end. The bytes of a call are read into a
// buffer, which has room for all where it is half as long as the line.
pub fn answer(
    line: &[u8],
    number: u64,
    post: Post,
    bytes: &mut [u8],
    out: &mut [u8],
    room: &mut [u8],
    text: &mut [u8],
) -> Done
    ensures { Hears (answered line.now number post bytes.old out.old room.old text.old) result bytes.new out.new room.new text.new }
{
    if LONGEST < line.len() {
        let wrong = Wrong {
            place: LONGEST,
            fault: Fault::TooLong,
        };
        let mut text = Text { bytes: text, at: 0 };
        faults::put(&mut text, number, wrong);
        return Done { post, n: text.at };
    }
    let start = lines::skip(line, 0);
    if line.len() <= start {
        return Done { post, n: 0 };
    }
    if lines::at(line, start) == b'#' {
        let mut text = Text { bytes: text, at: 0 };
        text.put(line);
        return Done { post, n: text.at };
    }
    hear(line, number, post, bytes, out, room, text)
}
