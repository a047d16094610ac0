// kernel-hal/src/utils/page_table.rs: `get_entry_mut`, the walk that every call begins with.
#![tactic(auto)]

ghost use Rattle.std.specs.Prelude.{◌≡◌, ◌/◌, ◌≤◌};
ghost use Rattle.paging.specs.Level.{span, index};
ghost use Rattle.form.specs.Form.{Good};
ghost use Rattle.walk.specs.Walk.{size_at, found};

use common::defs::{PAGE_SIZE, VirtAddr};
use common::vm::PageSize;
use x86_64::vm::X86PTE;

// The leaf over an address: the frame and the place of its entry, and its size.
#[derive(Clone, Copy, Debug, PartialEq, Eq)]
pub struct LeafEntry {
    pub frame: usize,
    pub place: usize,
    pub size: PageSize,
}

// The unused entry that a walk stops at.
#[derive(Clone, Copy, Debug, PartialEq, Eq)]
pub struct OpenEntry {
    pub level: usize,
    pub frame: usize,
    pub place: usize,
}

#[derive(Clone, Copy, Debug, PartialEq, Eq)]
pub enum Walk {
    Leaf(LeafEntry),
    Open(OpenEntry),
}

// The place of an address in a table of the level, 0 being the lowest.
pub fn index_at(level: usize, vaddr: VirtAddr) -> usize
    requires { level ≤ 3 }
    ensures { result ≡ index level vaddr }
{
    // `p1_index` to `p4_index` in one, without a choice at each level
    index::index_above(vaddr, 12 + 9 * level as u32)
}

// The bytes that an entry of the level spans.
pub fn span_at(level: usize) -> u64
    requires { level ≤ 3 }
    ensures { result ≡ span level }
{
    match level {
        0 => 0x1000,
        1 => 0x20_0000,
        2 => 0x4000_0000,
        _ => 0x80_0000_0000,
    }
}

// The size of a leaf of the level.
pub fn size_at(level: usize) -> PageSize
    ensures { result ≡ size_at level }
{
    match level {
        0 => PageSize::Size4K,
        1 => PageSize::Size2M,
        _ => PageSize::Size1G,
    }
}

// Down from the root to the first entry that is no table: one word of each level is read.
pub fn get_entry(pool: &[u64], base: u64, used: usize, vaddr: VirtAddr) -> Walk
    requires { Good pool.now base used }
    ensures { result ≡ found pool.now (base / 4096) vaddr }
{
    let mut level: usize = 3;
    let mut frame: usize = 0;
    // every walk ends at its lowest level at the latest; a `for` over the levels would have to give an answer after that
    loop {
        let place = index_at(level, vaddr);
        let entry = X86PTE(pool::entry_at(pool, frame, place));
        if entry.is_leaf() {
            return Walk::Leaf(LeafEntry {
                frame,
                place,
                size: size_at(level),
            });
        }
        if entry.is_unused() {
            return Walk::Open(OpenEntry {
                level,
                frame,
                place,
            });
        }
        frame = ((entry.addr() - base) / PAGE_SIZE) as usize;
        level -= 1;
    }
}
