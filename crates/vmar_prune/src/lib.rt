// zircon-object/src/vm/vmar.rs: what `unmap_inner`, `destroy_internal` and `clear` do to a space that passes its check and to its page flags. The table is cut before
// (vmar_cuts).
//
// A range goes as two addresses, which may be any: a type with their order would ask more of callers.
#![tactic(auto)]

ghost use Rattle.std.specs.Prelude.{◌≡◌, ℕ, ◌+◌, ◌-◌, ◌*◌, ◌/◌, ◌^◌, ◌≤◌, ◌<◌, false, not, length, get_or, slice_index};
ghost use Rattle.scan.specs.Scan.{below};
ghost use Rattle.space.specs.Space.{blank_mapping};
ghost use Rattle.space.specs.Passes.{Passes, Passing};
ghost use Rattle.vmar_offset.specs.Offset.{free_mapping};
ghost use Rattle.vmar_prune.specs.Piece.{before, after, left, right, piece, copied, retained};
ghost use Rattle.vmar_prune.specs.Prune.{kept_mapping, regions_to, mappings_to, kept_slots, packed, pruned, splits, split_slot, cut_space, retained_to, handed_over, cut_flags};
ghost use Rattle.vmar_prune.specs.Steps.{Short, Fitting, packed_of};

use common::defs::{PAGE_SIZE, VirtAddr};
use space::{Mapping, Region, Space};

// How many bytes of the mapping lie before the address.
#[tactic(auto, unfolding(crate::specs::Piece::before))]
fn before(m: Mapping, begin: VirtAddr) -> u64
    ensures { result ≡ before m begin }
{
    m.size.min(begin.saturating_sub(m.addr))
}

// How many lie from it on.
#[tactic(auto, unfolding(crate::specs::Piece::after))]
fn after(m: Mapping, end: VirtAddr) -> u64
    requires { m.addr + m.size < 2 ^ 64 }
    ensures { result ≡ after m end }
{
    m.size.min((m.addr + m.size).saturating_sub(end))
}

// The mapping of the first n bytes.
fn left(m: Mapping, n: u64) -> Mapping
    ensures { result ≡ left m n }
{
    Mapping { size: n, ..m }
}

// The mapping of the last n bytes.
fn right(m: Mapping, n: u64) -> Mapping
    requires { (n ≤ m.size) × Short m }
    ensures { result ≡ right m n }
{
    let skip = m.size - n;
    Mapping {
        addr: m.addr + skip,
        size: n,
        offset: m.offset + skip,
        ..m
    }
}

// What the slot keeps, as the Rust's `cut`: the part before the range, else that behind it, else nothing.
#[tactic(auto, using(crate::proofs::Parts::after_most), unfolding(crate::specs::Piece::piece))]
fn cut(m: Mapping, begin: VirtAddr, end: VirtAddr) -> Mapping
    requires { Short m }
    ensures { result ≡ piece m begin end }
{
    let first = before(m, begin);
    if first != 0 {
        return left(m, first);
    }
    let last = after(m, end);
    if last != 0 {
        return right(m, last);
    }
    Mapping::BLANK
}

// Whether the mapping is of region r and both its ends are kept.
#[tactic(auto, unfolding(crate::specs::Prune::splits, crate::specs::Piece::is_split))]
fn is_split(m: Mapping, r: usize, begin: VirtAddr, end: VirtAddr) -> bool
    requires { m.addr + m.size < 2 ^ 64 }
    ensures { result ≡ splits m r begin end }
{
    m.live && m.region == r && before(m, begin) != 0 && after(m, end) != 0
}

#[tactic(auto, unfolding(crate::specs::Prune::kept_mapping))]
fn kept_mapping(m: Mapping, marks: &[bool; 32], r: usize, begin: VirtAddr, end: VirtAddr) -> Mapping
    requires { Short m × (m.region < 32) }
    ensures { result ≡ kept_mapping marks.now r begin end m }
{
    if marks[m.region] {
        return Mapping::BLANK;
    }
    if m.region != r {
        return m;
    }
    cut(m, begin, end)
}

fn kept_mappings(
    s: &Space,
    marks: &[bool; 32],
    r: usize,
    begin: VirtAddr,
    end: VirtAddr,
) -> [Mapping; 64]
    requires { Passing s.now }
    ensures { result ≡ mappings_to marks.now r begin end s.now.mappings 64 }
{
    let mut maps = s.mappings;
    for (i, m) in s.mappings.iter().enumerate() {
        maps[i] = kept_mapping(*m, marks, r, begin, end);
    }
    maps
}

// A mapping goes by its region's mark and by the range, a region by its mark alone.
fn kept_regions(s: &Space, marks: &[bool; 32]) -> [Region; 32]
    ensures { result ≡ regions_to marks.now s.now.regions 32 }
{
    let mut regions = s.regions;
    for (i, is_doomed) in marks.iter().enumerate() {
        if *is_doomed {
            regions[i] = Region::BLANK;
        }
    }
    regions
}

// Puts the slots of the old list that stay into the new one, in their order, and answers how many.
fn pack(old: &[usize], goes: &[bool], list: &mut [usize]) -> usize
    requires slots { (k : ℕ) → k < length old.now → slice_index old.now k < length goes.now }
    requires room { length old.now ≤ length list.old }
    ensures order { packed_of list.new result ≡ packed (kept_slots goes.now) list.old old.now (length old.now) }
    ensures most { result ≤ length old.now }
{
    let mut n = 0;
    for slot in old {
        if goes[*slot] {
            continue;
        }
        list[n] = *slot;
        n += 1;
    }
    n
}

// A mark for each slot that holds no mapping.
fn are_free(maps: [Mapping; 64]) -> [bool; 64]
    ensures { (i : ℕ) → i < 64 → get_or result i false ≡ not (get_or maps i blank_mapping).live }
{
    maps.map(|m| !m.live)
}

// The space without what goes.
fn prune(s: &mut Space, marks: &[bool; 32], r: usize, begin: VirtAddr, end: VirtAddr)
    requires { Passing s.old }
    ensures value { s.new ≡ pruned s.old marks.now r begin end }
    ensures most { s.new.mapcount ≤ s.old.mapcount }
{
    let regions = kept_regions(s, marks);
    let mappings = kept_mappings(s, marks, r, begin, end);
    let mut reglist = [0; 32];
    let regcount = pack(&s.reglist[..s.regcount], marks, &mut reglist);
    let mut maplist = [0; 64];
    let mapcount = pack(&s.maplist[..s.mapcount], &are_free(mappings), &mut maplist);
    *s = Space {
        regions,
        mappings,
        reglist,
        regcount,
        maplist,
        mapcount,
        nextid: s.nextid,
    };
}

// The slot of the mapping that is split.
pub fn split_slot(s: &Space, r: usize, begin: VirtAddr, end: VirtAddr) -> Option<usize>
    requires { Passing s.now }
    ensures { result ≡ below 64 (split_slot s.now r begin end) }
{
    for (i, m) in s.mappings.iter().enumerate() {
        if is_split(*m, r, begin, end) {
            return Some(i);
        }
    }
    None
}

// The range is cut out of region r; marks tell which regions go.
pub fn cut_space(s: &mut Space, marks: &[bool; 32], r: usize, begin: VirtAddr, end: VirtAddr)
    requires { Passing s.old × (split_slot s.old r begin end < 64 → free_mapping s.old < 64) }
    ensures { s.new ≡ cut_space s.old marks.now r begin end }
{
    let Some(i) = split_slot(s, r, begin, end) else {
        prune(s, marks, r, begin, end);
        return;
    };
    let m = s.mappings[i];
    let part = right(m, after(m, end));
    let slot = vmar_offset::free_mapping(s).unwrap();
    prune(s, marks, r, begin, end);
    s.add_mapping(slot, part);
}

// The 512 bytes from `to` on become the n bytes from `from` on and then zeros.
fn copy_pages(flags: &mut [u8], to: usize, from: usize, n: usize)
    requires { (length flags.old ≡ 32768) × (to + 512 ≤ 32768) × (from + n ≤ 32768) × (n ≤ 512) }
    ensures { flags.new ≡ copied flags.old to from n 512 }
{
    flags.copy_within(from..from + n, to);
    flags[to + n..to + 512].fill(0);
}

// Slot i held the mapping m and now holds the piece k of it.
#[tactic(auto, unfolding(crate::specs::Piece::retained))]
fn retain(flags: &mut [u8], m: Mapping, k: Mapping, i: usize)
    requires { (length flags.old ≡ 32768) × (i < 64) × ((k.addr - m.addr) / 4096 + k.size / 4096 ≤ 512) }
    ensures { flags.new ≡ retained m k flags.old i }
{
    if k.size == m.size {
        return;
    }
    let skip = (k.addr.saturating_sub(m.addr) / PAGE_SIZE) as usize;
    let n = (k.size / PAGE_SIZE) as usize;
    copy_pages(flags, i * 512, i * 512 + skip, n);
}

fn retain_all(flags: &mut [u8], old: &[Mapping; 64], new: &[Mapping; 64])
    requires { (length flags.old ≡ 32768) × ((i : ℕ) → i < 64 → Fitting (get_or old.now i blank_mapping) (get_or new.now i blank_mapping)) }
    ensures { flags.new ≡ retained_to old.now new.now flags.old 64 }
{
    for (i, m) in old.iter().enumerate() {
        retain(flags, *m, new[i], i);
    }
}

// The flags of a split's second part go to its slot.
fn hand_over(s: &Space, flags: &mut [u8], r: usize, begin: VirtAddr, end: VirtAddr)
    requires { Passes s.now flags.old × (split_slot s.now r begin end < 64 → free_mapping s.now < 64) }
    ensures { flags.new ≡ handed_over s.now flags.old r begin end }
{
    let Some(i) = split_slot(s, r, begin, end) else {
        return;
    };
    let m = s.mappings[i];
    let n = after(m, end);
    let slot = vmar_offset::free_mapping(s).unwrap();
    let skip = ((m.size - n) / PAGE_SIZE) as usize;
    copy_pages(flags, slot * 512, i * 512 + skip, (n / PAGE_SIZE) as usize);
}

// The page flags after the range was cut out of region r.
pub fn cut_flags(
    s: &Space,
    flags: &mut [u8],
    marks: &[bool; 32],
    r: usize,
    begin: VirtAddr,
    end: VirtAddr,
)
    requires { Passes s.now flags.old × (split_slot s.now r begin end < 64 → free_mapping s.now < 64) }
    ensures { flags.new ≡ cut_flags s.now flags.old marks.now r begin end }
{
    hand_over(s, flags, r, begin, end);
    let new = kept_mappings(s, marks, r, begin, end);
    retain_all(flags, &s.mappings, &new);
}
