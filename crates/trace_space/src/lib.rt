// What the lines of a trace do with a space: the calls on it, the lines that set a record, a link or a page flag, and those that write it out.
// docs/REPLAY.md has them.
#![tactic(auto)]

ghost use Rattle.std.specs.Prelude.{min, take};
ghost use Rattle.paging.specs.Choice.{Decided};
ghost use Rattle.space.specs.Passes.{Passes};

use lines::{code, number};
use refusal::Refusal;
use space::FLAGS;
use std::io::{self, Write};
use trace_line::{OnSpace, Unanswered};
use trace_table::{Pool, finish, write_unanswered};
use vmar::{AddressSpace, Answer, Changed};
use vmar_map::Vmo;

// Page flags in fixed memory, and how many of them are lent with calls.
#[derive(Clone, Copy)]
struct Pages {
    flags: [u8; FLAGS],
    many: usize,
}

impl Pages {
    fn new() -> Pages {
        Pages {
            flags: [0; FLAGS],
            many: FLAGS,
        }
    }

    fn lent(&mut self) -> &mut [u8] {
        let many = self.many.min(FLAGS);
        &mut self.flags[..many]
    }
}

#[derive(Clone, Copy)]
pub struct Held {
    pub space: AddressSpace,
    pages: Pages,
}

// Where there is such a place.
fn set<T: Copy>(places: &mut [T], at: usize, value: T) -> Result<u64, Unanswered> {
    let place = places.get_mut(at).ok_or(Unanswered::Unreadable)?;
    *place = value;
    Ok(0)
}

impl Held {
    pub fn fresh() -> Held {
        Held {
            space: AddressSpace::new_root(),
            pages: Pages::new(),
        }
    }

    fn start(&mut self, space: AddressSpace) -> Result<u64, Unanswered> {
        self.space = space;
        self.pages = Pages::new();
        Ok(0)
    }

    fn answered<T>(&mut self, after: Answer<T>) -> Result<T, Unanswered> {
        self.space = after.space;
        Ok(after.result?)
    }

    fn changed<T>(&mut self, pool: &mut Pool, after: Changed<T>) -> Result<T, Unanswered> {
        self.space = after.space;
        pool.used = after.used;
        Ok(after.result?)
    }

    // The value of a line's answer.
    pub fn make(&mut self, pool: &mut Pool, on: OnSpace) -> Result<u64, Unanswered> {
        let (base, used) = (pool.base, pool.used);
        match on {
            OnSpace::Root => self.start(AddressSpace::new_root()),
            OnSpace::Kernel => self.start(AddressSpace::new_kernel()),
            OnSpace::Alloc {
                region,
                offset,
                len,
                flags,
                align,
            } => {
                let pages = self.pages.lent();
                let after = self
                    .space
                    .allocate(pages, region, offset, len, flags, align);
                self.answered(after)
            }
            OnSpace::MapExt {
                region,
                offset,
                vmo,
                vmo_len,
                vmo_offset,
                len,
                permissions,
                flags,
                overwrite,
                allow_faults,
            } => {
                let vmo = Vmo {
                    id: vmo,
                    len: vmo_len,
                };
                let pages = self.pages.lent();
                let after = self.space.map_ext(
                    pages,
                    pool.lent(),
                    base,
                    used,
                    region,
                    offset,
                    vmo,
                    vmo_offset,
                    len,
                    permissions,
                    flags,
                    overwrite,
                    allow_faults,
                );
                self.changed(pool, after)
            }
            OnSpace::MappingFlags { region, vaddr } => {
                let pages = self.pages.lent();
                let after = self.space.get_mapping_flags(pages, region, vaddr);
                Ok(self.answered(after)?.0)
            }
            OnSpace::VaddrFlags { region, vaddr } => {
                let pages = self.pages.lent();
                let after = self
                    .space
                    .get_vaddr_flags(pages, pool.lent(), base, used, region, vaddr);
                Ok(self.answered(after)?.0)
            }
            OnSpace::Check {
                region,
                vaddr,
                len,
                access,
            } => {
                let pages = self.pages.lent();
                let after = self
                    .space
                    .check_user_range(pages, region, vaddr, len, access);
                self.answered(after)?;
                Ok(0)
            }
            OnSpace::Unmap { region, vaddr, len } => {
                let pages = self.pages.lent();
                let after = self
                    .space
                    .unmap(pages, pool.lent(), base, used, region, vaddr, len);
                self.changed(pool, after)?;
                Ok(0)
            }
            OnSpace::Protect {
                region,
                vaddr,
                len,
                flags,
            } => {
                let pages = self.pages.lent();
                let after = self
                    .space
                    .protect(pages, pool.lent(), base, used, region, vaddr, len, flags);
                self.answered(after)?;
                Ok(0)
            }
            OnSpace::Destroy(region) => {
                let pages = self.pages.lent();
                let after = self.space.destroy(pages, pool.lent(), base, used, region);
                self.changed(pool, after)?;
                Ok(0)
            }
            OnSpace::Clear(region) => {
                let pages = self.pages.lent();
                let after = self.space.clear(pages, pool.lent(), base, used, region);
                self.changed(pool, after)?;
                Ok(0)
            }
            OnSpace::Region { slot, record } => set(&mut self.space.space.regions, slot, record),
            OnSpace::Mapping { slot, record } => set(&mut self.space.space.mappings, slot, record),
            OnSpace::Reglist { place, slot } => set(&mut self.space.space.reglist, place, slot),
            OnSpace::Maplist { place, slot } => set(&mut self.space.space.maplist, place, slot),
            OnSpace::Counts {
                regions,
                mappings,
                nextid,
            } => {
                self.space.space.regcount = regions;
                self.space.space.mapcount = mappings;
                self.space.space.nextid = nextid;
                Ok(0)
            }
            OnSpace::Page { index, flags } => set(&mut self.pages.flags, index, flags),
            OnSpace::Lend(many) => {
                if FLAGS < many {
                    return Err(Unanswered::Unreadable);
                }
                self.pages.many = many;
                Ok(0)
            }
        }
    }

    // Every field that is not 0, and every page flag.
    pub fn write_space<W: Write>(&self, used: usize, out: &mut W) -> io::Result<()> {
        code(out, 0)?;
        number(out, self.pages.many as u64)?;
        trace_listing::records(&self.space.space, out)?;
        trace_listing::page_flags(&self.pages.flags, out)?;
        finish(out, used)
    }

    // Whether the space passes its check with what is lent.
    pub fn is_good(&self) -> bool
        ensures { Decided (Passes self.now.space.space (take (min self.now.pages.many 32768) self.now.pages.flags)) result }
    {
        let many = self.pages.many.min(FLAGS);
        space_check::is_good(&self.space.space, &self.pages.flags[..many])
    }

    // The regions with their children and mappings, if it does.
    pub fn write_tree<W: Write>(&mut self, used: usize, out: &mut W) -> io::Result<()> {
        if !self.is_good() {
            return write_unanswered(out, Unanswered::Refused(Refusal::BadSpace), used);
        }
        code(out, 0)?;
        trace_listing::tree(&self.space.space, &self.pages.flags, out)?;
        finish(out, used)
    }
}
