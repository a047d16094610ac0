// Makes the calls that standard input lists, one a line, on a pool of up to 64 frames and a space, and writes an answer for each. docs/REPLAY.md
// has the lines and the answers. Nothing grows with the input: of a line that is longer than any readable one the rest is passed over.
#![tactic(auto)]

use std::io::{self, BufWriter, Write};
use trace_input::Answers;
use trace_line::{Line, Unanswered};
use trace_space::Held;
use trace_table::{Pool, write_answer, write_unanswered};

// How much output waits to be written.
const BUFFER: usize = 65536;

#[derive(Drop)]
struct Replay {
    pool: Pool,
    held: Held,
    // lines answered
    lines: u64,
}

impl Answers for Replay {
    // The line's number, and then what it answers.
    fn answer<W: Write>(&mut self, line: Option<&[u8]>, out: &mut W) -> io::Result<()> {
        self.lines = self.lines.wrapping_add(1);
        trace_output::decimal(out, self.lines)?;
        match line.and_then(trace_line::parse) {
            Some(Line::Pool(on)) => self.pool.answer(on, out),
            Some(Line::Space(on)) => {
                let value = self.held.make(&mut self.pool, on);
                write_answer(out, value.map(|value| [value]), self.pool.used)
            }
            Some(Line::Records) => self.held.write_space(self.pool.used, out),
            Some(Line::Tree) => self.held.write_tree(self.pool.used, out),
            None => write_unanswered(out, Unanswered::Unreadable, self.pool.used),
        }
    }
}

fn main(rt: HostRuntime) -> io::Result<()> {
    let mut replay = Replay {
        pool: Pool::new(),
        held: Held::fresh(),
        lines: 0,
    };
    let mut out = BufWriter::with_capacity(rt.alloc(), BUFFER, io::writer(&rt))?;
    trace_input::answer_all(&mut rt.reader(), &mut replay, &mut out)
}
