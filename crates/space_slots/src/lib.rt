// Of BAD_SPACE: the two lists, what each slot holds, and the tree.
#![tactic(auto)]

ghost use Rattle.std.specs.Prelude.{◌↔◌, ◌≡◌, ℕ, ◌<◌, ◌≤◌, IsTrue, length, slice_index};
ghost use Rattle.space.specs.Space.{region_at, mapping_at};
ghost use Rattle.space.specs.Passes.{In, RootRange};
ghost use Rattle.space_slots.specs.Slots.{Places, GoodRegion, RegionSlot, RegionSlots, TreePlace, TreePlaces, GoodMapping, MappingSlot, MappingSlots};

use common::defs::{MMUFlags, PAGE_SIZE, VmarFlags};
use space::{
    KERNEL_ASPACE_BASE, KERNEL_ASPACE_SIZE, LAST, MAPPINGS, MOST, Mapping, NO_REGION, REGIONS,
    Region, Space, USER_ASPACE_BASE, USER_ASPACE_SIZE,
};

// Whether x stands among the first n places.
fn has(list: &[usize], n: usize, x: usize) -> bool
    requires { n ≤ length list.now }
    ensures { IsTrue result ↔ In list.now n x }
{
    list[..n].contains(&x)
}

// Whether place k holds a slot that none before it holds.
fn is_new_slot(list: &[usize], k: usize) -> bool
    requires { k < length list.now }
    ensures { IsTrue result ↔ (slice_index list.now k < length list.now) × (In list.now k (slice_index list.now k) → ⊥) }
{
    list[k] < list.len() && !has(list, k, list[k])
}

fn are_zero(places: &[usize]) -> bool
    ensures { IsTrue result ↔ ((k : ℕ) → k < length places.now → slice_index places.now k ≡ 0) }
{
    places.iter().all(|slot| *slot == 0)
}

// Whether the first `count` places hold slots, none of them twice, and the other places 0.
pub fn is_list(list: &[usize], count: usize) -> bool
    ensures { IsTrue result ↔ Places list.now count }
{
    if list.len() < count {
        return false;
    }
    for k in 0..count {
        if !is_new_slot(list, k) {
            return false;
        }
    }
    are_zero(&list[count..])
}

// The record of slot r; a slot past the last reads as a free one.
fn region_at(s: &Space, r: usize) -> Region
    ensures { result ≡ region_at s.now r }
{
    s.regions.get(r).copied().unwrap_or(Region::BLANK)
}

fn is_root_range(addr: u64, size: u64) -> bool
    ensures { IsTrue result ↔ RootRange addr size }
{
    match addr {
        USER_ASPACE_BASE => size == USER_ASPACE_SIZE,
        KERNEL_ASPACE_BASE => size == KERNEL_ASPACE_SIZE,
        _ => false,
    }
}

// What is asked of the live region g whose parent's record is p.
fn is_good_region(g: Region, p: Region, nextid: u64) -> bool
    ensures { IsTrue result ↔ GoodRegion g p nextid }
{
    if !VmarFlags(g.flags).is_known() || nextid <= g.id || !space::sum_le(g.addr, g.size, LAST) {
        return false;
    }
    if g.parent == NO_REGION {
        return is_root_range(g.addr, g.size);
    }
    g.parent < NO_REGION && space::within(g.addr, g.size, p.addr, p.size)
}

// What is asked of region slot i: listed and good if it lives, else blank.
fn is_region_slot(s: &Space, i: usize) -> bool
    requires { (s.now.regcount ≤ 32) × (i < 32) }
    ensures { IsTrue result ↔ RegionSlot s.now.reglist s.now.regcount (region_at s.now i) (region_at s.now (region_at s.now i).parent) s.now.nextid i }
{
    let g = s.regions[i];
    let listed = has(&s.reglist, s.regcount, i);
    if g.live {
        listed && is_good_region(g, region_at(s, g.parent), s.nextid)
    } else {
        !listed && g == Region::BLANK
    }
}

pub fn are_region_slots(s: &Space) -> bool
    requires { s.now.regcount ≤ 32 }
    ensures { IsTrue result ↔ RegionSlots s.now }
{
    for i in 0..REGIONS {
        if !is_region_slot(s, i) {
            return false;
        }
    }
    true
}

// What is asked of the region at place k: it is the root, or stands after its parent.
fn is_tree_place(list: &[usize], k: usize, parent: usize) -> bool
    requires { k ≤ length list.now }
    ensures { IsTrue result ↔ TreePlace list.now k parent }
{
    if parent == NO_REGION {
        k == 0
    } else {
        has(list, k, parent)
    }
}

pub fn is_tree(s: &Space) -> bool
    requires { (s.now.regcount ≤ 32) × ((k : ℕ) → k < s.now.regcount → slice_index s.now.reglist k < 32) }
    ensures { IsTrue result ↔ TreePlaces s.now }
{
    (0..s.regcount).all(|k| is_tree_place(&s.reglist, k, s.regions[s.reglist[k]].parent))
}

// What is asked of the live mapping m whose region's record is p.
fn is_good_mapping(m: Mapping, p: Region) -> bool
    ensures { IsTrue result ↔ GoodMapping m p }
{
    m.region < REGIONS
        && p.live
        && space::within(m.addr, m.size, p.addr, p.size)
        && m.addr % PAGE_SIZE == 0
        && m.size % PAGE_SIZE == 0
        && m.offset % PAGE_SIZE == 0
        && space::sum_le(m.addr, m.size, LAST)
        && space::sum_le(m.offset, m.size, LAST)
        && m.size <= MOST
        && MMUFlags(m.permissions).is_known()
}

// What is asked of mapping slot i: listed and good if it lives, else blank. One function with `is_region_slot` would take both tests as closures, and say
// in its clauses what each call of them gives.
fn is_mapping_slot(s: &Space, i: usize) -> bool
    requires { (s.now.mapcount ≤ 64) × (i < 64) }
    ensures { IsTrue result ↔ MappingSlot s.now.maplist s.now.mapcount (mapping_at s.now i) (region_at s.now (mapping_at s.now i).region) i }
{
    let m = s.mappings[i];
    let listed = has(&s.maplist, s.mapcount, i);
    if m.live {
        listed && is_good_mapping(m, region_at(s, m.region))
    } else {
        !listed && m == Mapping::BLANK
    }
}

pub fn are_mapping_slots(s: &Space) -> bool
    requires { s.now.mapcount ≤ 64 }
    ensures { IsTrue result ↔ MappingSlots s.now }
{
    for i in 0..MAPPINGS {
        if !is_mapping_slot(s, i) {
            return false;
        }
    }
    true
}
