// A space written out, to any writer.
#![tactic(auto)]

use lines::number;
use space::{Mapping, Region, Space};
use std::io::{self, Write};

// Page flags of a mapping slot.
const SLOT_PAGES: usize = 512;

fn letter<W: Write>(out: &mut W, b: u8) -> io::Result<()> {
    trace_output::text(out, &[b' ', b])
}

// Every field, of a record as it stands in its slot.
fn region<W: Write>(out: &mut W, slot: usize, g: &Region) -> io::Result<()> {
    letter(out, b'r')?;
    number(out, slot as u64)?;
    number(out, u64::from(g.live))?;
    number(out, g.id)?;
    number(out, g.addr)?;
    number(out, g.size)?;
    number(out, g.flags)?;
    number(out, g.parent as u64)
}

fn mapping<W: Write>(out: &mut W, slot: usize, m: &Mapping) -> io::Result<()> {
    letter(out, b'm')?;
    number(out, slot as u64)?;
    number(out, u64::from(m.live))?;
    number(out, m.region as u64)?;
    number(out, m.addr)?;
    number(out, m.size)?;
    number(out, m.vmo)?;
    number(out, m.offset)?;
    number(out, m.permissions)
}

// A number with its place, if it is not 0.
fn entry<W: Write>(out: &mut W, name: u8, place: usize, n: u64) -> io::Result<()> {
    if n == 0 {
        return Ok(());
    }
    letter(out, name)?;
    number(out, place as u64)?;
    number(out, n)
}

// Counts, next id, and what is not blank of records and lists.
pub fn records<W: Write>(s: &Space, out: &mut W) -> io::Result<()> {
    number(out, s.regcount as u64)?;
    number(out, s.mapcount as u64)?;
    number(out, s.nextid)?;
    for (slot, g) in s.regions.iter().enumerate() {
        if *g != Region::BLANK {
            region(out, slot, g)?;
        }
    }
    for (slot, m) in s.mappings.iter().enumerate() {
        if *m != Mapping::BLANK {
            mapping(out, slot, m)?;
        }
    }
    for (place, slot) in s.reglist.iter().enumerate() {
        entry(out, b'R', place, *slot as u64)?;
    }
    for (place, slot) in s.maplist.iter().enumerate() {
        entry(out, b'M', place, *slot as u64)?;
    }
    Ok(())
}

pub fn page_flags<W: Write>(pages: &[u8], out: &mut W) -> io::Result<()> {
    for (page, flags) in pages.iter().enumerate() {
        entry(out, b'f', page, u64::from(*flags))?;
    }
    Ok(())
}

// The runs of like pages.
fn runs<W: Write>(pages: &[u8], out: &mut W) -> io::Result<()> {
    for run in pages.chunk_by(|a, b| *a == *b) {
        if let [flags, ..] = run {
            letter(out, b'f')?;
            number(out, u64::from(*flags))?;
            number(out, run.len() as u64)?;
        }
    }
    Ok(())
}

// A mapping with the flags of its pages.
fn leaf<W: Write>(out: &mut W, m: &Mapping, pages: &[u8]) -> io::Result<()> {
    letter(out, b'm')?;
    number(out, m.addr)?;
    number(out, m.size)?;
    number(out, m.vmo)?;
    number(out, m.offset)?;
    number(out, m.permissions)?;
    let many = (m.size / 4096) as usize;
    if many <= pages.len() {
        runs(&pages[..many], out)?;
    }
    Ok(())
}

// A region with what it holds.
fn branch<W: Write>(s: &Space, pages: &[u8], out: &mut W, r: usize) -> io::Result<()> {
    let Some(g) = s.regions.get(r) else {
        return Ok(());
    };
    letter(out, b'r')?;
    number(out, g.id)?;
    match s.regions.get(g.parent) {
        Some(up) => number(out, up.id)?,
        None => letter(out, b'-')?,
    }
    number(out, g.addr)?;
    number(out, g.size)?;
    number(out, g.flags)?;
    for slot in s.reglist.iter().take(s.regcount) {
        if let Some(child) = s.regions.get(*slot)
            && child.parent == r
        {
            letter(out, b'c')?;
            number(out, child.id)?;
        }
    }
    for slot in s.maplist.iter().take(s.mapcount) {
        if let Some(m) = s.mappings.get(*slot)
            && m.region == r
            && let Some(flags) = pages.chunks(SLOT_PAGES).nth(*slot)
        {
            leaf(out, m, flags)?;
        }
    }
    Ok(())
}

// The next id, and each region in the order of the making, of a space that passes its check.
pub fn tree<W: Write>(s: &Space, pages: &[u8], out: &mut W) -> io::Result<()> {
    number(out, s.nextid)?;
    for r in s.reglist.iter().take(s.regcount) {
        branch(s, pages, out, *r)?;
    }
    Ok(())
}
