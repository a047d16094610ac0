// A line of a trace: a name and its fields, parted by one space. docs/REPLAY.md has them.
#![tactic(auto)]

ghost use Rattle.std.specs.Prelude.{◌≡◌, ◌≤◌, ◌<◌, take, IfSome};
ghost use Rattle.trace_line.specs.Unanswered.{number_of_line};

use common::defs::{MMUFlags, PhysAddr, VirtAddr, VmarFlags};
use common::vm::PageSize;
use refusal::Refusal;
use space::{Mapping, Region};

// The longest line's.
const MOST_FIELDS: usize = 10;

const MOST_FRAMES: u64 = 64;

#[derive(Clone, Copy)]
pub enum Line {
    Pool(OnPool),
    Space(OnSpace),
    // these write the space
    Records,
    Tree,
}

// What a line does with the pool.
#[derive(Clone, Copy)]
pub enum OnPool {
    New {
        base: PhysAddr,
        frames: usize,
        used: usize,
    },
    Word {
        index: u64,
        value: u64,
    },
    Dump,
    Sum,
    Map {
        vaddr: VirtAddr,
        size: PageSize,
        paddr: PhysAddr,
        flags: MMUFlags,
    },
    Unmap(VirtAddr),
    Update {
        vaddr: VirtAddr,
        paddr: Option<PhysAddr>,
        flags: Option<MMUFlags>,
    },
    Query(VirtAddr),
    MapCont {
        vaddr: VirtAddr,
        len: u64,
        paddr: PhysAddr,
        flags: MMUFlags,
    },
    UnmapCont {
        vaddr: VirtAddr,
        len: u64,
    },
}

// What a line does with the space. A region goes by its id.
#[derive(Clone, Copy)]
pub enum OnSpace {
    Root,
    Kernel,
    Alloc {
        region: u64,
        offset: Option<u64>,
        len: u64,
        flags: VmarFlags,
        align: u64,
    },
    MapExt {
        region: u64,
        offset: Option<u64>,
        vmo: u64,
        vmo_len: u64,
        vmo_offset: u64,
        len: u64,
        permissions: MMUFlags,
        flags: MMUFlags,
        overwrite: bool,
        allow_faults: bool,
    },
    MappingFlags {
        region: u64,
        vaddr: VirtAddr,
    },
    VaddrFlags {
        region: u64,
        vaddr: VirtAddr,
    },
    Check {
        region: u64,
        vaddr: VirtAddr,
        len: u64,
        access: MMUFlags,
    },
    Unmap {
        region: u64,
        vaddr: VirtAddr,
        len: u64,
    },
    Protect {
        region: u64,
        vaddr: VirtAddr,
        len: u64,
        flags: MMUFlags,
    },
    Destroy(u64),
    Clear(u64),
    // these set the port's records, right or wrong
    Region {
        slot: usize,
        record: Region,
    },
    Mapping {
        slot: usize,
        record: Mapping,
    },
    Reglist {
        place: usize,
        slot: usize,
    },
    Maplist {
        place: usize,
        slot: usize,
    },
    Counts {
        regions: usize,
        mappings: usize,
        nextid: u64,
    },
    Page {
        index: usize,
        flags: u8,
    },
    Lend(usize),
}

// Why a line has no values.
#[derive(Clone, Copy, Debug, PartialEq, Eq)]
pub enum Unanswered {
    Refused(Refusal),
    Unreadable,
}

impl Unanswered {
    pub fn number(self) -> u64
        ensures { result ≡ number_of_line self }
    {
        match self {
            Unanswered::Refused(why) => why.number(),
            Unanswered::Unreadable => 16,
        }
    }
}

impl From<Refusal> for Unanswered {
    fn from(why: Refusal) -> Self {
        Unanswered::Refused(why)
    }
}

// A name and its fields, in fixed memory; a dash is none.
#[derive(Clone, Copy)]
pub struct Words<'a> {
    pub name: &'a [u8],
    fields: [Option<u64>; MOST_FIELDS],
    many: usize,
    ghost fits: { many ≤ 10 },
}

impl<'a> Words<'a> {
    pub fn of(line: &'a [u8]) -> Option<Words<'a>> {
        let mut parts = line.split(|b| *b == b' ');
        let name = parts.next()?;
        let mut words = Words {
            name,
            fields: [None; MOST_FIELDS],
            many: 0,
        };
        for part in parts {
            words.push(field(part)?)?;
        }
        Some(words)
    }

    // None if there is no room.
    fn push(&mut self, field: Option<u64>) -> Option<()> {
        if self.many == MOST_FIELDS {
            return None;
        }
        self.fields[self.many] = field;
        self.many += 1;
        Some(())
    }

    pub fn fields(&self) -> &[Option<u64>]
        ensures { result.now ≡ take self.now.many self.now.fields }
    {
        &self.fields[..self.many]
    }
}

fn digit(b: u8) -> Option<u64>
    ensures { IfSome result (λ d. d < 16) }
{
    match b {
        b'0'..=b'9' => Some((b - b'0') as u64),
        b'a'..=b'f' => Some((b - b'a') as u64 + 10),
        _ => None,
    }
}

fn number(text: &[u8]) -> Option<u64> {
    if text.is_empty() || 16 < text.len() {
        return None;
    }
    let mut n: u64 = 0;
    for b in text {
        // nothing is lost of sixteen digits
        n = n << 4 | digit(*b)?;
    }
    Some(n)
}

// A number, or a dash.
fn field(text: &[u8]) -> Option<Option<u64>> {
    match text {
        b"-" => Some(None),
        _ => Some(Some(number(text)?)),
    }
}

fn flag(n: u64) -> Option<bool> {
    match n {
        0 => Some(false),
        1 => Some(true),
        _ => None,
    }
}

fn page_size(bytes: u64) -> Option<PageSize> {
    match bytes {
        0x1000 => Some(PageSize::Size4K),
        0x20_0000 => Some(PageSize::Size2M),
        0x4000_0000 => Some(PageSize::Size1G),
        _ => None,
    }
}

fn on_pool(name: &[u8], fields: &[Option<u64>]) -> Option<OnPool> {
    match (name, fields) {
        (b"new", &[Some(base), Some(frames), Some(used)]) => {
            if MOST_FRAMES < frames {
                return None;
            }
            Some(OnPool::New {
                base,
                frames: frames as usize,
                used: used as usize,
            })
        }
        (b"word", &[Some(index), Some(value)]) => Some(OnPool::Word { index, value }),
        (b"dump", []) => Some(OnPool::Dump),
        (b"sum", []) => Some(OnPool::Sum),
        (b"map", &[Some(vaddr), Some(size), Some(paddr), Some(flags)]) => Some(OnPool::Map {
            vaddr,
            size: page_size(size)?,
            paddr,
            flags: MMUFlags(flags),
        }),
        (b"unmap", &[Some(vaddr)]) => Some(OnPool::Unmap(vaddr)),
        (b"update", &[Some(vaddr), paddr, flags]) => Some(OnPool::Update {
            vaddr,
            paddr,
            flags: flags.map(MMUFlags),
        }),
        (b"query", &[Some(vaddr)]) => Some(OnPool::Query(vaddr)),
        (b"map_cont", &[Some(vaddr), Some(len), Some(paddr), Some(flags)]) => {
            Some(OnPool::MapCont {
                vaddr,
                len,
                paddr,
                flags: MMUFlags(flags),
            })
        }
        (b"unmap_cont", &[Some(vaddr), Some(len)]) => Some(OnPool::UnmapCont { vaddr, len }),
        _ => None,
    }
}

fn on_space(name: &[u8], fields: &[Option<u64>]) -> Option<OnSpace> {
    match (name, fields) {
        (b"root", []) => Some(OnSpace::Root),
        (b"kernel", []) => Some(OnSpace::Kernel),
        (b"alloc", &[Some(region), offset, Some(len), Some(flags), Some(align)]) => {
            Some(OnSpace::Alloc {
                region,
                offset,
                len,
                flags: VmarFlags(flags),
                align,
            })
        }
        (
            b"map_ext",
            &[
                Some(region),
                offset,
                Some(vmo),
                Some(vmo_len),
                Some(vmo_offset),
                Some(len),
                Some(permissions),
                Some(flags),
                Some(overwrite),
                Some(allow_faults),
            ],
        ) => Some(OnSpace::MapExt {
            region,
            offset,
            vmo,
            vmo_len,
            vmo_offset,
            len,
            permissions: MMUFlags(permissions),
            flags: MMUFlags(flags),
            overwrite: flag(overwrite)?,
            allow_faults: flag(allow_faults)?,
        }),
        (b"mflags", &[Some(region), Some(vaddr)]) => {
            Some(OnSpace::MappingFlags { region, vaddr })
        }
        (b"vflags", &[Some(region), Some(vaddr)]) => Some(OnSpace::VaddrFlags { region, vaddr }),
        (b"check", &[Some(region), Some(vaddr), Some(len), Some(access)]) => {
            Some(OnSpace::Check {
                region,
                vaddr,
                len,
                access: MMUFlags(access),
            })
        }
        (b"runmap", &[Some(region), Some(vaddr), Some(len)]) => {
            Some(OnSpace::Unmap { region, vaddr, len })
        }
        (b"protect", &[Some(region), Some(vaddr), Some(len), Some(flags)]) => {
            Some(OnSpace::Protect {
                region,
                vaddr,
                len,
                flags: MMUFlags(flags),
            })
        }
        (b"destroy", &[Some(region)]) => Some(OnSpace::Destroy(region)),
        (b"clear", &[Some(region)]) => Some(OnSpace::Clear(region)),
        _ => on_record(name, fields),
    }
}

fn on_record(name: &[u8], fields: &[Option<u64>]) -> Option<OnSpace> {
    match (name, fields) {
        (
            b"region",
            &[
                Some(slot),
                Some(live),
                Some(id),
                Some(addr),
                Some(size),
                Some(flags),
                Some(parent),
            ],
        ) => Some(OnSpace::Region {
            slot: slot as usize,
            record: Region {
                live: flag(live)?,
                id,
                addr,
                size,
                flags,
                parent: parent as usize,
            },
        }),
        (
            b"mapping",
            &[
                Some(slot),
                Some(live),
                Some(region),
                Some(addr),
                Some(size),
                Some(vmo),
                Some(offset),
                Some(permissions),
            ],
        ) => Some(OnSpace::Mapping {
            slot: slot as usize,
            record: Mapping {
                live: flag(live)?,
                region: region as usize,
                addr,
                size,
                vmo,
                offset,
                permissions,
            },
        }),
        (b"reglist", &[Some(place), Some(slot)]) => Some(OnSpace::Reglist {
            place: place as usize,
            slot: slot as usize,
        }),
        (b"maplist", &[Some(place), Some(slot)]) => Some(OnSpace::Maplist {
            place: place as usize,
            slot: slot as usize,
        }),
        (b"counts", &[Some(regions), Some(mappings), Some(nextid)]) => Some(OnSpace::Counts {
            regions: regions as usize,
            mappings: mappings as usize,
            nextid,
        }),
        (b"page", &[Some(index), Some(flags)]) => Some(OnSpace::Page {
            index: index as usize,
            flags: u8::try_from(flags).ok()?,
        }),
        (b"lend", &[Some(many)]) => Some(OnSpace::Lend(many as usize)),
        _ => None,
    }
}

// None of a line that cannot be read.
pub fn parse(line: &[u8]) -> Option<Line> {
    let words = Words::of(line)?;
    match (words.name, words.fields()) {
        (b"space", []) => Some(Line::Records),
        (b"tree", []) => Some(Line::Tree),
        (name, fields) => match on_pool(name, fields) {
            Some(on) => Some(Line::Pool(on)),
            None => on_space(name, fields).map(Line::Space),
        },
    }
}
