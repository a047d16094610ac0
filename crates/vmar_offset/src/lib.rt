// zircon-object/src/vm/vmar.rs: `determine_offset`, `find_free_area` and `test_map`, on a space that passes its check; and
// which slots a call takes: that of an id, the lowest free one.
//
// `LiveIn` is of a space and a slot, `Passes` of a space and its page flags: no one value could have them as its type's.
#![tactic(auto)]

ghost use Rattle.std.specs.Prelude.{◌≡◌, ℕ, ◌+◌, ◌*◌, ◌^◌, ◌<◌, ◌≤◌, true, length, Bool};
ghost use Rattle.scan.specs.Scan.{below};
ghost use Rattle.space.specs.Space.{region_at};
ghost use Rattle.space.specs.Passes.{LiveIn};
ghost use Rattle.vmar_offset.specs.Offset.{has_id, slot_of, free_region, free_mapping, meets, test_map, taken, find_free_area, determine_offset};
ghost use Rattle.vmar_offset.specs.Ends.{EndsIn, first_end};

use refusal::Refusal;
use space::{Part, Region, Space};

// Whether g is the live region of this id.
#[tactic(auto, using(std::proofs::lemmas::Bool::Decides::nat_tests), unfolding(crate::specs::Offset::has_id))]
fn has_id(g: &Region, id: u64) -> bool
    ensures { result ≡ has_id g.now id }
{
    g.live && g.id == id
}

// The slot of the live region of this id.
pub fn slot_of(s: &Space, id: u64) -> Option<usize>
    ensures { result ≡ below 32 (slot_of s.now id) }
{
    s.regions.iter().position(|g| has_id(g, id))
}

// The lowest free region slot. A search over any `Part` would be called with the array that its name tells here.
pub fn free_region(s: &Space) -> Option<usize>
    ensures { result ≡ below 32 (free_region s.now) }
{
    s.regions.iter().position(|g| !g.live)
}

// The lowest free mapping slot.
pub fn free_mapping(s: &Space) -> Option<usize>
    ensures { result ≡ below 64 (free_mapping s.now) }
{
    s.mappings.iter().position(|m| !m.live)
}

// Whether p is of region r and overlaps the range. Most parts end before a place that is tried: that is tested first.
#[tactic(auto, using(std::proofs::lemmas::Bool::Decides::nat_tests), unfolding(crate::specs::Offset::meets, space::specs::Range::overlap))]
pub fn meets<P: Part>(p: P, r: usize, begin: u64, len: u64) -> bool
    ensures { result ≡ meets (P.is_live p) (P.owner p) (P.addr p) (P.size p) r begin len }
{
    !space::sum_le(p.addr(), p.size(), begin)
        && !space::sum_le(begin, len, p.addr())
        && p.owner() == r
        && p.is_live()
}

// Whether something of this length can be made at the offset of region r.
#[tactic(auto, using(std::proofs::lemmas::Bool::Decides::nat_tests), unfolding(crate::specs::Offset::test_map))]
pub fn test_map(s: &Space, r: usize, offset: u64, len: u64) -> bool
    requires { LiveIn s.now r }
    ensures { result ≡ test_map s.now r offset len }
{
    let g = s.regions[r];
    if !space::sum_le(offset, len, g.size) {
        return false;
    }
    let begin = g.addr + offset;
    if s.regions.iter().any(|g| meets(*g, r, begin, len)) {
        return false;
    }
    !s.mappings.iter().any(|m| meets(*m, r, begin, len))
}

// Whether the search takes the offset: it is a multiple of the alignment, and something of this length can be made there.
#[tactic(auto, using(std::proofs::lemmas::Bool::Decides::nat_tests))]
fn is_taken(s: &Space, r: usize, offset: u64, len: u64, align: u64) -> bool
    requires { LiveIn s.now r }
    ensures { result ≡ taken s.now r len align offset }
{
    vm::check_aligned(offset, align) && test_map(s, r, offset, len)
}

// The first end of a listed part of region r at which something of this length can be made.
fn first_end<P: Part>(
    s: &Space,
    r: usize,
    parts: &[P],
    list: &[usize],
    len: u64,
    align: u64,
) -> Option<u64>
    requires { LiveIn s.now r × EndsIn P.owner P.addr P.size parts.now list.now r (region_at s.now r).addr }
    ensures { (d : P) → result ≡ first_end P.owner P.addr P.size parts.now list.now d s.now r len align }
{
    let base = s.regions[r].addr;
    for slot in list {
        let p = parts[*slot];
        if p.owner() == r {
            let offset = p.addr() + p.size() - base;
            if is_taken(s, r, offset, len, align) {
                return Some(offset);
            }
        }
    }
    None
}

// The first offset at which something of this length can be made: 0, the ends of children, the ends of mappings.
#[tactic(auto, using(std::proofs::lemmas::Bool::Decides::nat_tests), unfolding(crate::specs::Offset::find_free_area))]
fn find_free_area(s: &Space, r: usize, len: u64, align: u64) -> Option<u64>
    requires { LiveIn s.now r }
    ensures { result ≡ find_free_area s.now r len align }
{
    if test_map(s, r, 0, len) {
        return Some(0);
    }
    let children = &s.reglist[..s.regcount];
    if let Some(at) = first_end(s, r, &s.regions, children, len, align) {
        return Some(at);
    }
    let mappings = &s.maplist[..s.mapcount];
    first_end(s, r, &s.mappings, mappings, len, align)
}

// The offset asked for, or the first at which there is room.
#[tactic(auto, using(std::proofs::lemmas::Bool::Decides::nat_tests), unfolding(crate::specs::Offset::determine_offset))]
pub fn determine_offset(
    s: &Space,
    r: usize,
    offset: Option<u64>,
    len: u64,
    align: u64,
) -> Result<u64, Refusal>
    requires { LiveIn s.now r }
    ensures { result ≡ determine_offset s.now r offset len align }
{
    if !vm::check_aligned(len, align) {
        return Err(Refusal::InvalidArgs);
    }
    if let Some(at) = offset {
        return if is_taken(s, r, at, len, align) {
            Ok(at)
        } else {
            Err(Refusal::InvalidArgs)
        };
    }
    if s.regions[r].size < len {
        return Err(Refusal::InvalidArgs);
    }
    find_free_area(s, r, len, align).ok_or(Refusal::NoMemory)
}
