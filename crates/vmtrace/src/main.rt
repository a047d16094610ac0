// Makes the calls that standard input lists, one a line, on a pool of 8 frames and a fresh user root, and writes an answer for each. docs/REPLAY.md has
// the lines and the answers. Nothing grows with the input: of a line that is longer than any readable one the rest is passed over.
#![tactic(auto)]

ghost use Rattle.std.specs.Prelude.{OnOk, ◌++◌, ◌∷◌, [], false, decimal};
ghost use Rattle.std.specs.Fmt.{digits};
ghost use Rattle.std.specs.Io.KnownBytes.{Appends};

use common::defs::{MMUFlags, PhysAddr, VirtAddr, VmarFlags};
use refusal::Refusal;
use std::io::{self, BufWriter, Write};
use trace_input::Answers;
use trace_line::{Unanswered, Words};
use vmar::AddressSpace;

// How much output waits to be written.
const BUFFER: usize = 65536;

const POOL_BASE: PhysAddr = 0x10_0000;

#[derive(Clone, Copy)]
enum Call {
    Alloc {
        region: u64,
        offset: Option<u64>,
        len: u64,
        align: u64,
    },
    Tmap {
        vaddr: VirtAddr,
        size: u64,
        paddr: PhysAddr,
        flags: MMUFlags,
    },
    Tunmap {
        vaddr: VirtAddr,
        size: u64,
    },
    Q(VirtAddr),
}

fn parse(line: &[u8]) -> Option<Call> {
    let words = Words::of(line)?;
    match (words.name, words.fields()) {
        (b"alloc", &[Some(region), offset, Some(len), Some(align)]) => Some(Call::Alloc {
            region,
            offset,
            len,
            align,
        }),
        (b"tmap", &[Some(vaddr), Some(size), Some(paddr), Some(flags)]) => Some(Call::Tmap {
            vaddr,
            size,
            paddr,
            flags: MMUFlags(flags),
        }),
        (b"tunmap", &[Some(vaddr), Some(size)]) => Some(Call::Tunmap { vaddr, size }),
        (b"q", &[Some(vaddr)]) => Some(Call::Q(vaddr)),
        _ => None,
    }
}

// Document 01's pool of 8 frames at `POOL_BASE` and a user root; the pools of other programs have other sizes and lines.
#[derive(Drop)]
struct Machine {
    pool: [u64; 4096],
    // frames of it
    used: usize,
    space: AddressSpace,
    // its page flags
    pages: [u8; 32768],
    // lines answered
    lines: u64,
}

impl Machine {
    fn alloc(
        &mut self,
        region: u64,
        offset: Option<u64>,
        len: u64,
        align: u64,
    ) -> Result<u64, Refusal> {
        let after = self
            .space
            .allocate(&self.pages, region, offset, len, VmarFlags(0), align);
        self.space = after.space;
        after.result
    }

    fn tmap(
        &mut self,
        vaddr: VirtAddr,
        size: u64,
        paddr: PhysAddr,
        flags: MMUFlags,
    ) -> Result<u64, Refusal> {
        self.used = generic_page_table::map_cont(
            &mut self.pool,
            POOL_BASE,
            self.used,
            vaddr,
            size,
            paddr,
            flags,
        )?;
        Ok(0)
    }

    fn tunmap(&mut self, vaddr: VirtAddr, size: u64) -> Result<u64, Refusal> {
        let taken = generic_page_table::unmap_cont(
            &mut self.pool,
            POOL_BASE,
            self.used,
            vaddr,
            size,
        )?;
        self.used = self.used.wrapping_add(taken);
        Ok(taken as u64)
    }

    fn q(&self, vaddr: VirtAddr) -> Result<u64, Refusal> {
        let (paddr, _, _) = page_table::query(&self.pool, POOL_BASE, self.used, vaddr)?;
        Ok(paddr)
    }

    // The value of a line's answer.
    fn reply(&mut self, line: Option<&[u8]>) -> Result<u64, Unanswered> {
        let call = line.and_then(parse).ok_or(Unanswered::Unreadable)?;
        let value = match call {
            Call::Alloc {
                region,
                offset,
                len,
                align,
            } => self.alloc(region, offset, len, align)?,
            Call::Tmap {
                vaddr,
                size,
                paddr,
                flags,
            } => self.tmap(vaddr, size, paddr, flags)?,
            Call::Tunmap { vaddr, size } => self.tunmap(vaddr, size)?,
            Call::Q(vaddr) => self.q(vaddr)?,
        };
        Ok(value)
    }
}

impl Answers for Machine {
    fn answer<W: Write>(&mut self, line: Option<&[u8]>, out: &mut W) -> io::Result<()> {
        let (number, value) = match self.reply(line) {
            Ok(value) => (0, value),
            Err(why) => (why.number(), 0),
        };
        self.lines = self.lines.wrapping_add(1);
        write_answer(out, self.lines, number, value, self.used as u64)
    }
}

// The line's number, the refusal number, the value in hexadecimal, the frames in use.
fn write_answer<W: Write>(
    out: &mut W,
    line: u64,
    number: u64,
    value: u64,
    used: u64,
) -> io::Result<()>
    ensures { OnOk result (Appends (W.contents out.old) (W.contents out.new) (decimal line ++ (32 ∷ decimal number) ++ (32 ∷ digits 16 false value) ++ (32 ∷ decimal used) ++ (10 ∷ []))) }
{
    trace_output::decimal(out, line)?;
    lines::code(out, number)?;
    trace_output::byte(out, b' ')?;
    trace_output::hex(out, value)?;
    lines::code(out, used)?;
    trace_output::byte(out, b'\n')
}

fn main(rt: HostRuntime) -> io::Result<()> {
    let mut machine = Machine {
        pool: [0; 4096],
        used: 1,
        space: AddressSpace::new_root(),
        pages: [0; 32768],
        lines: 0,
    };
    let mut out = BufWriter::with_capacity(rt.alloc(), BUFFER, io::writer(&rt))?;
    trace_input::answer_all(&mut rt.reader(), &mut machine, &mut out)
}
