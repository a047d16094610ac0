// A leaf gives way to a table of its pieces, so that a range can be cut or changed from where it begins. The Rust unmaps the leaf and maps what
// is kept of it again; what comes out is the same, word for word, once the rest is emptied.
#![tactic(auto)]

ghost use Rattle.std.specs.Prelude.{◌≡◌, ◌⊎◌, ◌+◌, ◌-◌, ◌*◌, ◌/◌, ◌%◌, ◌^◌, ◌≤◌, ◌<◌, length};
ghost use Rattle.common.specs.Page.{level_of};
ghost use Rattle.paging.specs.Level.{span, Canonical, Within};
ghost use Rattle.paging.specs.Need.{splits, left};
ghost use Rattle.pool.specs.Pool.{listed};
ghost use Rattle.form.specs.Form.{Good};
ghost use Rattle.walk.specs.Walk.{size_at};
ghost use Rattle.table_split.specs.Split.{piece, split_leaf, leaf_over, split_at, needed, split_ends};

use common::defs::VirtAddr;
use common::vm::PageSize;
use walk::{LeafEntry, Walk};
use x86_64::vm::X86PTE;

// A 1 GiB leaf is split, and one of its pieces.
const DEPTH: usize = 2;

// The size of the pieces of a leaf; one of 4 KiB is never split.
fn piece_size(size: PageSize) -> PageSize
    ensures { result ≡ size_at (level_of size - 1) }
{
    match size {
        PageSize::Size4K => PageSize::Size4K,
        PageSize::Size2M => PageSize::Size4K,
        PageSize::Size1G => PageSize::Size2M,
    }
}

// Fills a table with the pieces of a leaf: each has its own part of the leaf's frames, and the leaf's rights.
fn put_pieces(table: &mut [u64], leaf: X86PTE, size: PageSize)
    requires { length table.old ≡ 512 }
    ensures { table.new ≡ listed 512 (piece size leaf.0) }
{
    let paddr = leaf.addr();
    let flags = leaf.flags();
    let step = size.size();
    for i in 0..table.len() {
        table[i] = X86PTE::leaf(paddr + (i as u64) * step, flags, size).0;
    }
}

// Puts frame `next` in the place of a leaf, as a table of its pieces.
fn split(pool: &mut [u64], base: u64, next: usize, leaf: LeafEntry)
    requires placed { (leaf.frame * 512 + 512 ≤ length pool.old) × (leaf.place < 512) }
    requires room { (next * 512 + 512 ≤ length pool.old) × (base % 4096 ≡ 0) × (base + 4096 * (length pool.old / 512) ≤ 2 ^ 52) }
    ensures { pool.new ≡ split_leaf pool.old (base / 4096) next leaf }
{
    let size = piece_size(leaf.size);
    let entry = X86PTE(pool::entry_at(pool, leaf.frame, leaf.place));
    let a = next * 512;
    let e = a + 512;
    put_pieces(&mut pool[a..e], entry, size);
    let table = X86PTE::UNUSED.set_table(base + 4096 * (next as u64));
    pool::set_entry(pool, leaf.frame, leaf.place, table.0);
}

// Splits the leaf over an address, and the piece over it, while the address falls inside; `depth` is how often a leaf can be split. Answers the
// frames in use afterwards. The end of the lower half is no address, but no leaf reaches over it, and nothing is split there.
fn split_at(pool: &mut [u64], base: u64, used: usize, vaddr: VirtAddr, depth: usize) -> usize
    requires good { Good pool.old base used }
    requires aligned { (vaddr % 4096 ≡ 0) × (Canonical 4 vaddr ⊎ (vaddr % span 3 ≡ 0)) }
    requires room { used + splits vaddr (leaf_over pool.old (base / 4096) vaddr) ≤ length pool.old / 512 }
    ensures { record { pool = pool.new; used = result } ≡ split_at depth pool.old (base / 4096) used vaddr }
{
    if depth == 0 {
        return used;
    }
    let Walk::Leaf(leaf) = walk::get_entry(pool, base, used, vaddr) else {
        return used;
    };
    if leaf.size.is_aligned(vaddr) {
        return used;
    }
    split(pool, base, used, leaf);
    split_at(pool, base, used + 1, vaddr, depth - 1)
}

// The level of the leaf over an address; 0 also where there is none, since neither that nor a leaf of 4 KiB is split.
fn leaf_level(pool: &[u64], base: u64, used: usize, vaddr: VirtAddr) -> usize
    requires { Good pool.now base used }
    ensures { result ≡ leaf_over pool.now (base / 4096) vaddr }
{
    let Walk::Leaf(leaf) = walk::get_entry(pool, base, used, vaddr) else {
        return 0;
    };
    table_map::level_of(leaf.size)
}

// How many splits it takes until a leaf of the level begins at the address.
fn count_splits(vaddr: VirtAddr, level: usize) -> usize
    requires { level ≤ 3 }
    ensures { result ≡ splits vaddr level }
{
    if level == 0 {
        return 0;
    }
    if vaddr % walk::span_at(level) == 0 {
        return 0;
    }
    1 + count_splits(vaddr, level - 1)
}

// The level of the leaf over an address once the leaves over `start` are split: what both are in is split once.
fn level_left(start: VirtAddr, vaddr: VirtAddr, level: usize) -> usize
    requires { level ≤ 3 }
    ensures { result ≡ left start vaddr level }
{
    if level == 0 {
        return 0;
    }
    let span = walk::span_at(level);
    if start / span != vaddr / span {
        return level;
    }
    if start % span == 0 {
        return level;
    }
    level_left(start, vaddr, level - 1)
}

// The frames that the partly cut leaves of a range require.
pub fn needed_frames(pool: &[u64], base: u64, used: usize, start: VirtAddr, end: VirtAddr) -> usize
    requires { Good pool.now base used }
    ensures { result ≡ needed pool.now (base / 4096) start end }
{
    let at_start = leaf_level(pool, base, used, start);
    let at_end = leaf_level(pool, base, used, end);
    count_splits(start, at_start) + count_splits(end, level_left(start, end, at_end))
}

// Both ends of a range become begins of leaves. Answers the frames in use afterwards.
pub fn split_ends(pool: &mut [u64], base: u64, used: usize, start: VirtAddr, end: VirtAddr) -> usize
    requires good { Good pool.old base used }
    requires range { (start % 4096 ≡ 0) × (end % 4096 ≡ 0) × (start < end) × Within 4 start end }
    requires room { needed pool.old (base / 4096) start end ≤ length pool.old / 512 - used }
    ensures value { record { pool = pool.new; used = result } ≡ split_ends pool.old (base / 4096) used start end }
    ensures stays_good { Good pool.new base result }
{
    let after_start = split_at(pool, base, used, start, DEPTH);
    split_at(pool, base, after_start, end, DEPTH)
}
