// Input that comes in pieces, of any length, and is read line by line in constant memory.
#![tactic(auto)]

ghost use Rattle.std.specs.Prelude.{◌≤◌};

use std::io::{self, Read, Write};

// How much is read at once.
const BUFFER: usize = 65536;

// More than the longest line that any program here can read.
const LINE: usize = 192;

// A program that answers each line of its input.
pub trait Answers {
    // Writes the answer to a line, or to one that was too long to keep.
    fn answer<W: Write>(&mut self, line: Option<&[u8]>, out: &mut W) -> io::Result<()>;
}

// A line as far as it has come, in fixed memory. Of one that is too long nothing is kept.
#[derive(Drop)]
struct Line {
    bytes: [u8; LINE],
    len: usize,
    is_too_long: bool,
    ghost fits: { len ≤ 192 },
}

impl Line {
    fn new() -> Line {
        Line {
            bytes: [0; LINE],
            len: 0,
            is_too_long: false,
        }
    }

    fn push(&mut self, more: &[u8]) {
        if LINE - self.len < more.len() {
            self.is_too_long = true;
            return;
        }
        let end = self.len + more.len();
        self.bytes[self.len..end].copy_from_slice(more);
        self.len = end;
    }

    fn is_begun(&self) -> bool {
        self.is_too_long || self.len != 0
    }

    fn text(&self) -> Option<&[u8]> {
        if self.is_too_long {
            return None;
        }
        Some(&self.bytes[..self.len])
    }

    fn clear(&mut self) {
        self.len = 0;
        self.is_too_long = false;
    }
}

// Answers each line that ends in `input`.
fn take<W: Write, A: Answers>(
    input: &[u8],
    line: &mut Line,
    answers: &mut A,
    out: &mut W,
) -> io::Result<()> {
    for piece in input.split_inclusive(|b| *b == b'\n') {
        match piece {
            [text @ .., b'\n'] => {
                line.push(text);
                answers.answer(line.text(), out)?;
                line.clear();
            }
            _ => line.push(piece),
        }
    }
    Ok(())
}

// Answers each line of the input. A last line without an end is a line.
pub fn answer_all<R: Read, W: Write, A: Answers>(
    from: &mut R,
    answers: &mut A,
    out: &mut W,
) -> io::Result<()> {
    let mut input = [0u8; BUFFER];
    let mut line = Line::new();
    // a loop has to end, and nothing says that the input does: no run has so many turns
    for _ in 0..u64::MAX {
        let n = from.read(&mut input)?;
        if n == 0 {
            break;
        }
        take(&input[..n], &mut line, answers, out)?;
        trace_output::flush(out)?;
    }
    if line.is_begun() {
        answers.answer(line.text(), out)?;
        trace_output::flush(out)?;
    }
    Ok(())
}
