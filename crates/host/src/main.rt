// The host program: reads calls, one a line, from the file that its argument names or from standard input, and answers each at once.
// A read or a write that fails is told on standard error and ends it, so that what was written has no gap.

#![tactic(auto)]

use desk::Post;
use std::env::{Env, FillError};
use std::fs::File;
use std::io::{Read, Write};
use std::{io, str};
use text::Text;

// Room for the longest line with a carriage return, and for one byte more, by which a longer line is known.
const LINE: usize = desk::LONGEST + 2;

// Room for the bytes of the longest line, two digits each.
const BYTES: usize = desk::LONGEST / 2;

// Room for what one read brings.
const BUFFER: usize = 4096;

// Room for the longest answer: all bytes of the longest line, three places each.
const TEXT: usize = 8192;

// Why the program ends before its input does.
#[derive(Drop)]
enum Failure {
    Read(io::Error),
    Write(io::Error),
}

// What is kept from line to line, and the buffers that are lent for each, made once.
#[derive(Drop)]
struct Keeper {
    post: Post,
    // how many lines there were, and how many of them were answered error:
    count: u64,
    errors: u64,
    // the next line, and how many bytes of it are in; its room is made once, as that of the others
    line: [u8; LINE],
    n: usize,
    bytes: [u8; BYTES],
    out: [u8; reading::LONGEST],
    room: [u8; reading::LONGEST],
    text: [u8; TEXT],
}

// The line without the carriage return before its end.
fn trimmed(line: &[u8]) -> &[u8] {
    match line {
        [front @ .., b'\r'] => front,
        _ => line,
    }
}

// Writes an answer of n bytes, with a line end.
fn tell(rt: &HostRuntime, text: &mut [u8], n: usize) -> io::Result<()> {
    if n == 0 {
        return Ok(());
    }
    let mut answer = Text { bytes: text, at: n };
    answer.put(b"\n");
    let end = answer.at;
    rt.stdout().write_all(lines::front(text, end))
}

impl Keeper {
    fn new() -> Keeper {
        Keeper {
            post: Post {
                session: session::unpowered(),
                out: reading::LONGEST,
                room: reading::LONGEST,
            },
            count: 0,
            errors: 0,
            line: [0; LINE],
            n: 0,
            bytes: [0; BYTES],
            out: [0; reading::LONGEST],
            room: [0; reading::LONGEST],
            text: [0; TEXT],
        }
    }

    // Answers the line that is in, and begins the next. It fails by its write alone.
    fn answer(&mut self, rt: &HostRuntime) -> io::Result<()> {
        self.count = self.count.saturating_add(1);
        let done = desk::answer(
            trimmed(lines::front(&self.line, self.n)),
            self.count,
            self.post,
            &mut self.bytes,
            &mut self.out,
            &mut self.room,
            &mut self.text,
        );
        self.post = done.post;
        self.n = 0;
        if lines::front(&self.text, done.n).starts_with(b"error:") {
            self.errors = self.errors.saturating_add(1);
        }
        tell(rt, &mut self.text, done.n)
    }

    // Keeps a part of the next line, as far as there is room.
    fn keep(&mut self, part: &[u8]) {
        let left = LINE.saturating_sub(self.n);
        let mut line = Text {
            bytes: &mut self.line,
            at: self.n,
        };
        line.put(lines::front(part, left));
        self.n = line.at;
    }

    // Answers each line that ends in what was read, and keeps what comes behind the last.
    fn take(&mut self, rt: &HostRuntime, read: &[u8]) -> io::Result<()> {
        let mut rest = read;
        while let Some(end) = rest.iter().position(|byte| *byte == b'\n') {
            self.keep(&rest[..end]);
            self.answer(rt)?;
            rest = &rest[end + 1..];
        }
        self.keep(rest);
        Ok(())
    }

    // Answers all lines of what is read.
    fn take_all<R: Read + Drop>(&mut self, rt: &HostRuntime, mut input: R) -> Result<(), Failure> {
        let mut buffer = [0; BUFFER];
        for _ in 0..u64::MAX {
            let n = input.read(&mut buffer).map_err(Failure::Read)?;
            if n == 0 {
                break;
            }
            self.take(rt, &buffer[..n]).map_err(Failure::Write)?;
        }
        if self.n > 0 {
            self.answer(rt).map_err(Failure::Write)?;
        }
        Ok(())
    }
}

// What failed, on standard error; where that fails too, nobody can be told.
fn complain(rt: &HostRuntime, what: &str, error: &io::Error) {
    let _ = eprintln!(rt; "{what}: {error}");
}

// Answers all lines of what is read, by its name.
fn run<R: Read + Drop>(rt: &HostRuntime, input: R, name: &str, is_strict: bool) {
    let mut keeper = Keeper::new();
    match keeper.take_all(rt, input) {
        Ok(()) => {}
        Err(Failure::Read(error)) => {
            complain(rt, name, &error);
            return;
        }
        Err(Failure::Write(error)) => complain(rt, "host: standard output", &error),
    }
    let errors = keeper.errors;
    if is_strict && errors > 0 {
        let _ = eprintln!(rt; "host: lines answered error: {errors}");
    }
}

fn run_file(rt: &HostRuntime, path: &[u8], is_strict: bool) {
    if path == b"-".as_slice() {
        run(rt, rt.stdin(), "host: standard input", is_strict);
        return;
    }
    match str::from_utf8(path) {
        Ok(name) => match File::open(rt, name) {
            Ok(file) => run(rt, file, name, is_strict),
            Err(error) => complain(rt, name, &error),
        },
        Err(_) => {
            let error = io::Error::from(io::ErrorKind::InvalidInput);
            complain(rt, "host: a file whose name is no UTF-8", &error);
        }
    }
}

// Room for the longest argument.
const ARGUMENT: usize = 4096;

fn main(rt: HostRuntime) {
    let mut word = [0; ARGUMENT];
    let is_strict = match rt.arg(1, &mut word) {
        Ok(n) => lines::front(&word, n) == b"--strict".as_slice(),
        Err(_) => false,
    };
    let place = if is_strict { 2 } else { 1 };
    match rt.arg(place, &mut word) {
        Ok(n) => run_file(&rt, lines::front(&word, n), is_strict),
        Err(FillError::NotPresent) => run_file(&rt, b"-", is_strict),
        // it names no file
        Err(FillError::TooLong) => run_file(&rt, b"", is_strict),
    }
}
