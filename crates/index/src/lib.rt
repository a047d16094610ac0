// kernel-hal/src/utils/page_table.rs: the place of an address in each table on its way.
#![tactic(auto)]

ghost use Rattle.std.specs.Prelude.{◌≡◌, ◌/◌, ◌%◌, ◌^◌, ◌<◌};
ghost use Rattle.paging.specs.Level.{index};

use common::defs::VirtAddr;

pub const ENTRY_COUNT: u64 = 512;

// The nine bits from `shift` up. The four below are the Rust's names for it.
pub fn index_above(vaddr: VirtAddr, shift: u32) -> usize
    requires { shift < 64 }
    ensures { result ≡ vaddr / 2 ^ shift % 512 }
{
    ((vaddr >> shift) & (ENTRY_COUNT - 1)) as usize
}

pub fn p4_index(vaddr: VirtAddr) -> usize
    ensures { result ≡ index 3 vaddr }
{
    index_above(vaddr, 12 + 27)
}

pub fn p3_index(vaddr: VirtAddr) -> usize
    ensures { result ≡ index 2 vaddr }
{
    index_above(vaddr, 12 + 18)
}

pub fn p2_index(vaddr: VirtAddr) -> usize
    ensures { result ≡ index 1 vaddr }
{
    index_above(vaddr, 12 + 9)
}

pub fn p1_index(vaddr: VirtAddr) -> usize
    ensures { result ≡ index 0 vaddr }
{
    index_above(vaddr, 12)
}
