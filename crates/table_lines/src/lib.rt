// Calls on a pool, and a line for each: a name, the refusal number (0 for success), the values of the answer in hexadecimal, and after a call that may
// change the pool the sum of its words, so that a refusal is seen to leave them. A call that may take frames writes how many are in use before that.
#![tactic(auto)]

ghost use Rattle.std.specs.Prelude.{◌≡◌, slice_set};

use common::defs::{MMUFlags, PhysAddr, VirtAddr};
use common::vm::PageSize;
use lines::{code, number, numbers, sum, text};
use refusal::Refusal;
use std::io::{self, Write};

pub const BASE: PhysAddr = 0x10_0000;

#[derive(Clone, Copy)]
pub enum Call {
    Query(VirtAddr),
    Unmap(VirtAddr),
    Update(VirtAddr, Option<PhysAddr>, Option<MMUFlags>),
    Map(VirtAddr, PhysAddr, PageSize, MMUFlags),
    // address, length, physical address, flags
    MapCont(VirtAddr, u64, PhysAddr, MMUFlags),
    UnmapCont(VirtAddr, u64),
    // a word as it stands
    Word(usize),
}

// A pool at `BASE` whose words are lent, since the largest would not be copied on a small stack; and the frames in use.
#[derive(Drop)]
pub struct Pool<'a> {
    pub words: &'a mut [u64],
    pub used: usize,
}

// The refusal number, and whatever values there are.
fn answer<W: Write, const N: usize>(
    out: &mut W,
    answer: Result<[u64; N], Refusal>,
) -> io::Result<()> {
    match answer {
        Ok(values) => {
            code(out, 0)?;
            numbers(out, &values)
        }
        Err(why) => code(out, why.number()),
    }
}

pub fn query<W: Write>(
    out: &mut W,
    pool: &[u64],
    base: PhysAddr,
    used: usize,
    vaddr: VirtAddr,
) -> io::Result<()> {
    let page = page_table::query(pool, base, used, vaddr);
    answer(
        out,
        page.map(|(paddr, flags, size)| [paddr, flags.0, size.size()]),
    )?;
    text(out, b"\n")
}

impl<'a> Pool<'a> {
    // The root alone is in use.
    pub fn new(words: &'a mut [u64]) -> Pool<'a>
        ensures { result.used ≡ 1 }
    {
        Pool { words, used: 1 }
    }

    // Where there is such a place.
    pub fn set_word(&mut self, at: usize, word: u64)
        ensures { self.new.words.now ≡ slice_set self.old.words.now at word }
    {
        if at < self.words.len() {
            self.words[at] = word;
        }
    }

    fn unmap<W: Write>(&mut self, out: &mut W, vaddr: VirtAddr) -> io::Result<()> {
        let leaf = page_table::unmap(self.words, BASE, self.used, vaddr);
        answer(out, leaf.map(|(paddr, size)| [paddr, size.size()]))?;
        self.sum(out)
    }

    fn update<W: Write>(
        &mut self,
        out: &mut W,
        vaddr: VirtAddr,
        paddr: Option<PhysAddr>,
        flags: Option<MMUFlags>,
    ) -> io::Result<()> {
        let leaf = page_table::update(self.words, BASE, self.used, vaddr, paddr, flags);
        answer(out, leaf.map(|size| [size.size()]))?;
        self.sum(out)
    }

    // What a map answers, of one page or of a range.
    fn mapped<W: Write>(&mut self, out: &mut W, used: Result<usize, Refusal>) -> io::Result<()> {
        if let Ok(used) = used {
            self.used = used;
        }
        answer(out, used.map(|_| []))?;
        self.frames(out)
    }

    fn unmap_cont<W: Write>(&mut self, out: &mut W, vaddr: VirtAddr, len: u64) -> io::Result<()> {
        let taken = generic_page_table::unmap_cont(self.words, BASE, self.used, vaddr, len);
        if let Ok(taken) = taken {
            self.used = self.used.wrapping_add(taken);
        }
        answer(out, taken.map(|taken| [taken as u64]))?;
        self.frames(out)
    }

    fn frames<W: Write>(&self, out: &mut W) -> io::Result<()> {
        number(out, self.used as u64)?;
        self.sum(out)
    }

    fn sum<W: Write>(&self, out: &mut W) -> io::Result<()> {
        number(out, sum(self.words))?;
        text(out, b"\n")
    }

    fn word<W: Write>(&self, out: &mut W, at: usize) -> io::Result<()> {
        if let Some(word) = self.words.get(at) {
            number(out, *word)?;
        }
        text(out, b"\n")
    }

    fn make<W: Write>(&mut self, out: &mut W, call: Call) -> io::Result<()> {
        let used = self.used;
        match call {
            Call::Query(vaddr) => query(out, self.words, BASE, used, vaddr),
            Call::Unmap(vaddr) => self.unmap(out, vaddr),
            Call::Update(vaddr, paddr, flags) => self.update(out, vaddr, paddr, flags),
            Call::Map(vaddr, paddr, size, flags) => {
                let after = page_table::map(self.words, BASE, used, vaddr, paddr, size, flags);
                self.mapped(out, after)
            }
            Call::MapCont(vaddr, len, paddr, flags) => {
                let after = generic_page_table::map_cont(
                    self.words, BASE, used, vaddr, len, paddr, flags,
                );
                self.mapped(out, after)
            }
            Call::UnmapCont(vaddr, len) => self.unmap_cont(out, vaddr, len),
            Call::Word(at) => self.word(out, at),
        }
    }

    pub fn run<W: Write>(&mut self, out: &mut W, calls: &[(&str, Call)]) -> io::Result<()> {
        for (name, call) in calls {
            text(out, name.as_bytes())?;
            self.make(out, *call)?;
        }
        Ok(())
    }
}
