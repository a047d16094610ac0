// The lines of a trace that make table calls: what each does to a pool, and how its answer is written. docs/REPLAY.md has them.
#![tactic(auto)]

ghost use Rattle.std.specs.Prelude.{◌≡◌, ◌*◌, OnOk, Ok, Err, length, min, replicate};
ghost use Rattle.std.specs.Io.KnownBytes.{Appends};
ghost use Rattle.trace_table.specs.Told.{finished, told};

use common::defs::{MMUFlags, PhysAddr, VirtAddr};
use common::vm::PageSize;
use lines::{code, number, numbers};
use std::io::{self, Write};
use trace_line::{OnPool, Unanswered};

const FRAME_WORDS: usize = 512;

const MOST_FRAMES: usize = 64;

// Those of the most frames.
const WORDS: usize = 32768;

// A pool in fixed memory, of which a trace lends so many frames, and what calls on it take.
#[derive(Drop)]
pub struct Pool {
    words: [u64; WORDS],
    frames: usize,
    pub base: PhysAddr,
    pub used: usize,
}

impl Pool {
    pub fn new() -> Pool
        ensures { result ≡ record { words = replicate 32768 0; frames = 8; base = 0x100000; used = 1 } }
    {
        Pool {
            words: [0; WORDS],
            frames: 8,
            base: 0x10_0000,
            used: 1,
        }
    }

    // The words of its frames.
    pub fn lent(&mut self) -> &mut [u64]
        ensures { length result.now ≡ min self.old.frames 64 * 512 }
    {
        let len = self.frames.min(MOST_FRAMES) * FRAME_WORDS;
        &mut self.words[..len]
    }

    fn renew(&mut self, base: PhysAddr, frames: usize, used: usize) {
        self.words.fill(0);
        self.base = base;
        self.frames = frames;
        self.used = used;
    }

    fn set_word(&mut self, index: u64, value: u64) -> Result<[u64; 1], Unanswered> {
        let word = self
            .lent()
            .get_mut(index as usize)
            .ok_or(Unanswered::Unreadable)?;
        *word = value;
        Ok([0])
    }

    // Two sums over every word, taken or not; the second weighs each word by its place.
    fn sums(&mut self) -> [u64; 2] {
        let mut first: u64 = 0;
        let mut second: u64 = 0;
        for word in self.lent().iter() {
            first = first.wrapping_add(*word);
            second = second.wrapping_add(first);
        }
        [first, second]
    }

    fn query(&mut self, vaddr: VirtAddr) -> Result<[u64; 3], Unanswered> {
        let (base, used) = (self.base, self.used);
        let (paddr, flags, size) = page_table::query(self.lent(), base, used, vaddr)?;
        Ok([paddr, flags.0, size.size()])
    }

    fn unmap(&mut self, vaddr: VirtAddr) -> Result<[u64; 2], Unanswered> {
        let (base, used) = (self.base, self.used);
        let (paddr, size) = page_table::unmap(self.lent(), base, used, vaddr)?;
        Ok([paddr, size.size()])
    }

    fn update(
        &mut self,
        vaddr: VirtAddr,
        paddr: Option<PhysAddr>,
        flags: Option<MMUFlags>,
    ) -> Result<[u64; 1], Unanswered> {
        let (base, used) = (self.base, self.used);
        let size = page_table::update(self.lent(), base, used, vaddr, paddr, flags)?;
        Ok([size.size()])
    }

    fn map(
        &mut self,
        vaddr: VirtAddr,
        size: PageSize,
        paddr: PhysAddr,
        flags: MMUFlags,
    ) -> Result<[u64; 1], Unanswered> {
        let (base, used) = (self.base, self.used);
        self.used = page_table::map(self.lent(), base, used, vaddr, paddr, size, flags)?;
        Ok([0])
    }

    fn map_cont(
        &mut self,
        vaddr: VirtAddr,
        len: u64,
        paddr: PhysAddr,
        flags: MMUFlags,
    ) -> Result<[u64; 1], Unanswered> {
        let (base, used) = (self.base, self.used);
        self.used = generic_page_table::map_cont(
            self.lent(),
            base,
            used,
            vaddr,
            len,
            paddr,
            flags,
        )?;
        Ok([0])
    }

    fn unmap_cont(&mut self, vaddr: VirtAddr, len: u64) -> Result<[u64; 1], Unanswered> {
        let (base, used) = (self.base, self.used);
        let taken = generic_page_table::unmap_cont(self.lent(), base, used, vaddr, len)?;
        self.used = used.wrapping_add(taken);
        Ok([taken as u64])
    }

    // Index and value of each word of the taken frames that is not 0.
    fn dump<W: Write>(&self, out: &mut W) -> io::Result<()> {
        code(out, 0)?;
        let taken = self.frames.min(MOST_FRAMES).min(self.used) * FRAME_WORDS;
        for (index, word) in self.words[..taken].iter().enumerate() {
            if *word != 0 {
                number(out, index as u64)?;
                number(out, *word)?;
            }
        }
        finish(out, self.used)
    }

    // Does what the line says and writes its answer.
    pub fn answer<W: Write>(&mut self, on: OnPool, out: &mut W) -> io::Result<()> {
        match on {
            OnPool::New { base, frames, used } => {
                self.renew(base, frames, used);
                write_values(out, &[0], used)
            }
            OnPool::Word { index, value } => {
                write_answer(out, self.set_word(index, value), self.used)
            }
            OnPool::Dump => self.dump(out),
            OnPool::Sum => write_values(out, &self.sums(), self.used),
            OnPool::Map {
                vaddr,
                size,
                paddr,
                flags,
            } => write_answer(out, self.map(vaddr, size, paddr, flags), self.used),
            OnPool::Unmap(vaddr) => write_answer(out, self.unmap(vaddr), self.used),
            OnPool::Update {
                vaddr,
                paddr,
                flags,
            } => write_answer(out, self.update(vaddr, paddr, flags), self.used),
            OnPool::Query(vaddr) => write_answer(out, self.query(vaddr), self.used),
            OnPool::MapCont {
                vaddr,
                len,
                paddr,
                flags,
            } => write_answer(out, self.map_cont(vaddr, len, paddr, flags), self.used),
            OnPool::UnmapCont { vaddr, len } => {
                write_answer(out, self.unmap_cont(vaddr, len), self.used)
            }
        }
    }
}

// The end of an answer: the frames in use.
pub fn finish<W: Write>(out: &mut W, used: usize) -> io::Result<()>
    ensures { OnOk result (Appends (W.contents out.old) (W.contents out.new) (finished used)) }
{
    code(out, used as u64)?;
    trace_output::byte(out, b'\n')
}

pub fn write_values<W: Write>(out: &mut W, values: &[u64], used: usize) -> io::Result<()>
    ensures { OnOk result (Appends (W.contents out.old) (W.contents out.new) (told (Ok values.now) used)) }
{
    code(out, 0)?;
    numbers(out, values)?;
    finish(out, used)
}

// The value is 0.
pub fn write_unanswered<W: Write>(out: &mut W, why: Unanswered, used: usize) -> io::Result<()>
    ensures { OnOk result (Appends (W.contents out.old) (W.contents out.new) (told (Err why) used)) }
{
    let number = why.number();
    writeln!(out, " {number} 0 {used}")
}

pub fn write_answer<W: Write, const N: usize>(
    out: &mut W,
    answer: Result<[u64; N], Unanswered>,
    used: usize,
) -> io::Result<()>
    ensures { OnOk result (Appends (W.contents out.old) (W.contents out.new) (told answer.entry used)) }
{
    match answer {
        Ok(values) => write_values(out, &values, used),
        Err(why) => write_unanswered(out, why, used),
    }
}
