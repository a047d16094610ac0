// The space: who owns which addresses. Slots hold plain records; regions and mappings name the region that they belong to by its slot, and two
// lists of slots keep the order in which the Rust's `children` and `mappings` stand. specs/Space draws it.
#![tactic(auto)]

ghost use Rattle.std.specs.Prelude.{◌≡◌, ℕ, ◌+◌, ◌^◌, ◌<◌, Bool, leb};
ghost use Rattle.space.specs.Space.{with_region, with_mapping};
ghost use Rattle.space.specs.Range.{overlap, inside, contains};

use common::defs::VirtAddr;

pub const REGIONS: usize = 32;

pub const MAPPINGS: usize = 64;

// Bytes of page flags that are lent: 512 for each mapping slot.
pub const FLAGS: usize = 32768;

// The parent of the root: a number and no `Option`, since programs set and list it.
pub const NO_REGION: usize = 32;

// The last address.
pub const LAST: u64 = 0xffff_ffff_ffff_ffff;

// Bytes of the longest mapping.
pub const MOST: u64 = 0x20_0000;

// The ranges that a root may have.
pub const USER_ASPACE_BASE: u64 = 0x20_0000;

pub const USER_ASPACE_SIZE: u64 = 0x7fff_ffdf_f000;

pub const KERNEL_ASPACE_BASE: u64 = 0xffff_ff02_0000_0000;

pub const KERNEL_ASPACE_SIZE: u64 = 0x80_0000_0000;

// A slot is free or holds a live region: a flag and no `Option`, since programs set and list each field.
#[derive(Clone, Copy, Debug, PartialEq, Eq)]
pub struct Region {
    pub live: bool,
    pub id: u64,
    pub addr: VirtAddr,
    pub size: u64,
    pub flags: u64,
    pub parent: usize,
}

impl Region {
    // A free slot.
    pub const BLANK: Region = Region {
        live: false,
        id: 0,
        addr: 0,
        size: 0,
        flags: 0,
        parent: 0,
    };
}

// A slot is free or holds a live mapping, by a flag as a region: a range of a VMO at a range of addresses. Its page flags stand in the slot's 512 lent bytes.
#[derive(Clone, Copy, Debug, PartialEq, Eq)]
pub struct Mapping {
    pub live: bool,
    pub region: usize,
    pub addr: VirtAddr,
    pub size: u64,
    pub vmo: u64,
    pub offset: u64,
    pub permissions: u64,
}

impl Mapping {
    // A free slot.
    pub const BLANK: Mapping = Mapping {
        live: false,
        region: 0,
        addr: 0,
        size: 0,
        vmo: 0,
        offset: 0,
        permissions: 0,
    };
}

// A region or a mapping: a range of addresses that belongs to a region.
pub trait Part: Copy {
    ghost is_live: { Self → Bool };

    ghost owner: { Self → ℕ };

    ghost addr: { Self → ℕ };

    ghost size: { Self → ℕ };

    fn is_live(self) -> bool
        ensures { result ≡ is_live self };

    // The region's slot.
    fn owner(self) -> usize
        ensures { result ≡ owner self };

    fn addr(self) -> VirtAddr
        ensures { result ≡ addr self };

    fn size(self) -> u64
        ensures { result ≡ size self };
}

impl Part for Region {
    ghost is_live = { λ g. g.live };

    ghost owner = { λ g. g.parent };

    ghost addr = { λ g. g.addr };

    ghost size = { λ g. g.size };

    fn is_live(self) -> bool {
        self.live
    }

    fn owner(self) -> usize {
        self.parent
    }

    fn addr(self) -> VirtAddr {
        self.addr
    }

    fn size(self) -> u64 {
        self.size
    }
}

impl Part for Mapping {
    ghost is_live = { λ m. m.live };

    ghost owner = { λ m. m.region };

    ghost addr = { λ m. m.addr };

    ghost size = { λ m. m.size };

    fn is_live(self) -> bool {
        self.live
    }

    fn owner(self) -> usize {
        self.region
    }

    fn addr(self) -> VirtAddr {
        self.addr
    }

    fn size(self) -> u64 {
        self.size
    }
}

#[derive(Clone, Copy)]
pub struct Space {
    pub regions: [Region; 32],
    pub mappings: [Mapping; 64],
    // Slots of live regions in the order of their making; 0 past the count. An array with its count, since there is no heap.
    pub reglist: [usize; 32],
    pub regcount: usize,
    // Slots of live mappings in the order of their making; 0 past the count.
    pub maplist: [usize; 64],
    pub mapcount: usize,
    // The id of the next region.
    pub nextid: u64,
}

impl Space {
    // The region goes to this free slot, last in the list, with the next id.
    pub fn add_region(&mut self, slot: usize, g: Region)
        requires { (slot < 32) × (self.old.regcount < 32) × (self.old.nextid < 2 ^ 32) }
        ensures { self.new ≡ with_region self.old slot g }
    {
        self.regions[slot] = g;
        self.reglist[self.regcount] = slot;
        self.regcount += 1;
        self.nextid += 1;
    }

    // The mapping goes to this free slot, last in the list.
    pub fn add_mapping(&mut self, slot: usize, m: Mapping)
        requires { (slot < 64) × (self.old.mapcount < 64) }
        ensures { self.new ≡ with_mapping self.old slot m }
    {
        self.mappings[slot] = m;
        self.maplist[self.mapcount] = slot;
        self.mapcount += 1;
    }
}

// Whether x + y is at most z, whatever the sum.
pub fn sum_le(x: u64, y: u64, z: u64) -> bool
    ensures { result ≡ leb (x + y) z }
{
    x.checked_add(y).is_some_and(|sum| sum <= z)
}

// Whether [addr, addr + size) and [begin, begin + len) overlap, as the Rust's `overlap`.
#[tactic(auto, using(std::proofs::lemmas::Bool::Decides::nat_tests), unfolding(crate::specs::Range::overlap))]
pub fn overlap(addr: VirtAddr, size: u64, begin: VirtAddr, len: u64) -> bool
    ensures { result ≡ overlap addr size begin len }
{
    !sum_le(begin, len, addr) && !sum_le(addr, size, begin)
}

// Whether [addr, addr + size) lies inside [begin, begin + len), as the Rust's `within`: ends may meet.
#[tactic(auto, using(std::proofs::lemmas::Bool::Decides::nat_tests), unfolding(crate::specs::Range::inside))]
pub fn within(addr: VirtAddr, size: u64, begin: VirtAddr, len: u64) -> bool
    ensures { result ≡ inside addr size begin len }
{
    begin <= addr && sum_le(addr - begin, size, len)
}

// Whether [addr, addr + size) holds the address, as the Rust's `contains`.
#[tactic(auto, using(std::proofs::lemmas::Bool::Decides::nat_tests), unfolding(crate::specs::Range::contains))]
pub fn contains(addr: VirtAddr, size: u64, vaddr: VirtAddr) -> bool
    ensures { result ≡ contains addr size vaddr }
{
    addr <= vaddr && vaddr - addr < size
}
