// kernel-hal/src/bare/arch/x86_64/vm.rs: the words of a page table.
//
//     63   62 – 52   51 – 12   11 10  9   8   7   6   5   4 3   2   1   0
//     NX      0      address     0    L   0   H   D   A    0    U   W   P      a leaf: L set, H where it is 2 MiB or 1 GiB
//      0      0      address     0    0   0   0   D   A    0    1   1   1      a table entry
//
// The processor sets A and D. `addr` and `flags` ignore them, and writing rights drops them.
ghost use Rattle.std.specs.Prelude.{◌≡◌, ◌+◌, ◌-◌, ◌*◌, ◌%◌, ◌^◌, ◌&&◌, eqb};
ghost use Rattle.paging.specs.Choice.{pick, Decided};
ghost use Rattle.paging.specs.Format.{Entry};
ghost use Rattle.common.specs.Flags.{grants};
ghost use Rattle.common.specs.Page.{size_of, aligned, is_huge};
ghost use Rattle.x86_64.specs.Entry.{frame_of, addr_of, marks_of, flags_of, is_unused, is_present, is_leaf, rights, leaf_by, table_word, x86};

use common::defs::{MMUFlags, PhysAddr};
use common::vm::PageSize;

// The bits of an entry beside its address.
#[derive(Clone, Copy, Debug, PartialEq, Eq)]
pub struct PTF(pub u64);

impl PTF {
    pub const PRESENT: PTF = PTF(1 << 0);

    pub const WRITABLE: PTF = PTF(1 << 1);

    pub const USER_ACCESSIBLE: PTF = PTF(1 << 2);

    pub const ACCESSED: PTF = PTF(1 << 5);

    pub const DIRTY: PTF = PTF(1 << 6);

    pub const HUGE_PAGE: PTF = PTF(1 << 7);
    // The manual leaves it to software. Here it marks leaves, so that one without rights is still an entry.
    pub const BIT_9: PTF = PTF(1 << 9);

    pub const NO_EXECUTE: PTF = PTF(1 << 63);
}

// The bits of a 4 KiB leaf with these page flags.
impl From<MMUFlags> for PTF {
    ghost from_gives = { λ f p. p.0 ≡ rights f.0 };

    fn from(f: MMUFlags) -> PTF {
        let present = f.0 & MMUFlags::RXW.0 != 0;
        PTF(
            bits_if(present, PTF::PRESENT.0)
                + bits_if(f.contains(MMUFlags::WRITE), PTF::WRITABLE.0)
                + bits_if(f.contains(MMUFlags::USER), PTF::USER_ACCESSIBLE.0)
                + PTF::BIT_9.0
                + bits_if(!f.contains(MMUFlags::EXECUTE), PTF::NO_EXECUTE.0),
        )
    }
}

// The bits, if they are wanted.
fn bits_if(wanted: bool, bits: u64) -> u64
    ensures { result ≡ pick wanted bits 0 }
{
    if wanted { bits } else { 0 }
}

const PHYS_ADDR_MASK: u64 = 0x000f_ffff_ffff_f000; // 12..52

// The bits of a number that an entry has room for.
fn phys_addr(paddr: u64) -> PhysAddr
    ensures { result ≡ addr_of paddr }
{
    paddr & PHYS_ADDR_MASK
}

// Page table entry on x86.
#[derive(Clone, Copy, Debug, PartialEq, Eq)]
pub struct X86PTE(pub u64);

impl X86PTE {
    pub const UNUSED: X86PTE = X86PTE(0);

    pub fn addr(self) -> PhysAddr
        ensures { result ≡ addr_of self.0 }
    {
        phys_addr(self.0)
    }

    // READ is bit 0; HUGE_PAGE is never returned.
    pub fn flags(self) -> MMUFlags
        ensures { result.0 ≡ flags_of self.0 }
    {
        MMUFlags(
            bits_if(self.is_present(), MMUFlags::READ.0)
                + bits_if(self.contains(PTF::WRITABLE), MMUFlags::WRITE.0)
                + bits_if(!self.contains(PTF::NO_EXECUTE), MMUFlags::EXECUTE.0)
                + bits_if(self.contains(PTF::USER_ACCESSIBLE), MMUFlags::USER.0),
        )
    }

    fn contains(self, bit: PTF) -> bool
        ensures { result ≡ grants self.0 bit.0 }
    {
        self.0 & bit.0 == bit.0
    }

    pub fn is_unused(self) -> bool
        ensures { result ≡ is_unused self.0 }
    {
        self.0 == 0
    }

    pub fn is_present(self) -> bool
        ensures { result ≡ is_present self.0 }
    {
        self.contains(PTF::PRESENT)
    }

    // Of any size: the Rust's test is for large ones alone.
    pub fn is_leaf(self) -> bool
        ensures { result ≡ is_leaf self.0 }
    {
        self.contains(PTF::BIT_9)
    }

    // All other bits stay.
    pub fn set_addr(self, paddr: PhysAddr) -> X86PTE
        ensures { result.0 ≡ self.0 - addr_of self.0 + addr_of paddr }
    {
        X86PTE(self.0 - self.addr() + phys_addr(paddr))
    }

    // The address stays.
    pub fn set_flags(self, flags: MMUFlags, is_huge: bool) -> X86PTE
        ensures { result.0 ≡ leaf_by is_huge (addr_of self.0) flags.0 0 }
    {
        X86PTE(self.addr() + PTF::from(flags).0 + bits_if(is_huge, PTF::HUGE_PAGE.0))
    }

    pub fn set_table(self, paddr: PhysAddr) -> X86PTE
        ensures { result.0 ≡ table_word (frame_of paddr) 0 }
    {
        X86PTE(phys_addr(paddr) + PTF::PRESENT.0 + PTF::WRITABLE.0 + PTF::USER_ACCESSIBLE.0)
    }

    // A leaf of the page at `paddr`, as `map` writes it into an unused entry.
    pub fn leaf(paddr: PhysAddr, flags: MMUFlags, size: PageSize) -> X86PTE
        ensures { result.0 ≡ leaf_by (is_huge size) (addr_of (paddr - paddr % size_of size)) flags.0 0 }
    {
        X86PTE::UNUSED
            .set_addr(size.align_down(paddr))
            .set_flags(flags, size.is_huge())
    }

    // What the processor has set.
    fn marks(self) -> u64
        ensures { result ≡ marks_of self.0 * 2 ^ 5 }
    {
        self.0 & (PTF::ACCESSED.0 | PTF::DIRTY.0)
    }

    // Whether this is a leaf of the size: what is read of it, written again, is the word.
    fn is_leaf_of(self, size: PageSize) -> bool
        ensures { result ≡ aligned size (addr_of self.0) && eqb (leaf_by (is_huge size) (addr_of self.0) (flags_of self.0) (marks_of self.0)) self.0 }
    {
        let paddr = self.addr();
        size.is_aligned(paddr) && X86PTE::leaf(paddr, self.flags(), size).0 + self.marks() == self.0
    }

    // Whether this is a table entry, found the same way.
    fn is_table(self) -> bool
        ensures { result ≡ eqb (table_word (frame_of self.0) (marks_of self.0)) self.0 }
    {
        self.set_table(self.addr()).0 + self.marks() == self.0
    }

    // Whether the rules write this word at this level, 0 being the lowest; bits 5 and 6 aside.
    pub fn is_entry(self, level: usize) -> bool
        ensures { Decided (Entry x86 level self.0) result }
    {
        if self.is_unused() {
            return true;
        }
        if self.is_leaf() {
            return match level {
                0 => self.is_leaf_of(PageSize::Size4K),
                1 => self.is_leaf_of(PageSize::Size2M),
                2 => self.is_leaf_of(PageSize::Size1G),
                _ => false,
            };
        }
        match level {
            1..=3 => self.is_table(),
            _ => false,
        }
    }
}
