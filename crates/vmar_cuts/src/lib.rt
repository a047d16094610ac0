// zircon-object/src/vm/vmar.rs: the table cuts of `unmap_inner`, `destroy_internal` and `clear`, in a space that passes its check. They come in the Rust's order and read the
// space only; the space itself is changed elsewhere. Whether the frames suffice is counted before the first cut, by the same walk.
#![tactic(auto)]

ghost use Rattle.std.specs.Prelude.{◌≡◌, ◌-◌, ◌*◌, ◌/◌, leb, IfSome};
ghost use Rattle.form.specs.Form.{Good};
ghost use Rattle.space.specs.Passes.{Passing};
ghost use Rattle.table_cuts.specs.Cuts.{Fits, cut_all, non_empty};
ghost use Rattle.vmar_cuts.specs.Cuts.{whole, part_of, parts, children, unmap_cuts, destroy_cuts};
ghost use Rattle.vmar_cuts.specs.Parts.{cut_of, cuts_of};

mod span;

use common::defs::VirtAddr;
use space::{Mapping, REGIONS, Space};
pub use span::Span;

// So many bytes from an address on.
#[derive(Clone, Copy)]
pub struct Extent {
    pub addr: VirtAddr,
    pub len: u64,
}

// The part of the mapping that lies in the range, if it is a mapping of region r that meets it.
fn part_of(m: Mapping, r: usize, span: Span) -> Option<Extent>
    requires { Fits (whole m) }
    ensures value { cuts_of result ≡ part_of m r span.begin span.end }
    ensures fits { IfSome result (λ p. Fits (cut_of p)) }
{
    if !vmar_offset::meets(m, r, span.begin, span.end - span.begin) {
        return None;
    }
    let from = m.addr.max(span.begin);
    let to = (m.addr + m.size).min(span.end);
    Some(Extent {
        addr: from,
        len: to - from,
    })
}

// Cuts the mapping's part; `used` counts the frames in use, here and below.
fn cut_part(m: Mapping, pool: &mut [u64], base: u64, used: &mut usize, r: usize, span: Span)
    requires good { Good pool.old base used.old }
    requires fits { Fits (whole m) }
    ensures value { record { pool = pool.new; used = used.new } ≡ cut_all (base / 4096) (part_of m r span.begin span.end) (record { pool = pool.old; used = used.old }) }
    ensures stays_good { Good pool.new base used.new }
{
    if let Some(part) = part_of(m, r, span) {
        *used = table_cuts::cut_one(pool, base, *used, part.addr, part.len);
    }
}

// Cuts the parts of the mappings of region r that lie in the range, in the order of the list.
fn cut_parts(s: &Space, pool: &mut [u64], base: u64, used: &mut usize, r: usize, span: Span)
    requires good { Good pool.old base used.old }
    requires passing { Passing s.now }
    ensures value { record { pool = pool.new; used = used.new } ≡ cut_all (base / 4096) (parts s.now r span.begin span.end) (record { pool = pool.old; used = used.old }) }
    ensures stays_good { Good pool.new base used.new }
{
    for slot in &s.maplist[..s.mapcount] {
        cut_part(s.mappings[*slot], pool, base, used, r, span);
    }
}

// Cuts all mappings of the children of region r within the range, each with its own children first, with so much depth left.
fn destroy_internal(
    s: &Space,
    pool: &mut [u64],
    base: u64,
    used: &mut usize,
    r: usize,
    span: Span,
    depth: usize,
)
    requires good { Good pool.old base used.old }
    requires passing { Passing s.now }
    ensures value { record { pool = pool.new; used = used.new } ≡ cut_all (base / 4096) (children s.now depth r span.begin span.end) (record { pool = pool.old; used = used.old }) }
    ensures stays_good { Good pool.new base used.new }
{
    if depth == 0 {
        return;
    }
    for slot in &s.reglist[..s.regcount] {
        if !vmar_doom::is_child_in(s.regions[*slot], r, span.begin, span.end) {
            continue;
        }
        destroy_internal(s, pool, base, used, *slot, Span::ALL, depth - 1);
        cut_parts(s, pool, base, used, *slot, Span::ALL);
    }
}

// The cuts of unmap and overwrite.
pub fn unmap_cuts(s: &Space, pool: &mut [u64], base: u64, used: &mut usize, r: usize, span: Span)
    requires good { Good pool.old base used.old }
    requires passing { Passing s.now }
    ensures value { record { pool = pool.new; used = used.new } ≡ cut_all (base / 4096) (unmap_cuts s.now r span.begin span.end) (record { pool = pool.old; used = used.old }) }
    ensures stays_good { Good pool.new base used.new }
{
    cut_parts(s, pool, base, used, r, span);
    destroy_internal(s, pool, base, used, r, span, REGIONS);
}

// The cuts of destroy and clear.
pub fn destroy_cuts(s: &Space, pool: &mut [u64], base: u64, used: &mut usize, r: usize)
    requires good { Good pool.old base used.old }
    requires passing { Passing s.now }
    ensures value { record { pool = pool.new; used = used.new } ≡ cut_all (base / 4096) (destroy_cuts s.now r) (record { pool = pool.old; used = used.old }) }
    ensures stays_good { Good pool.new base used.new }
{
    destroy_internal(s, pool, base, used, r, Span::ALL, REGIONS);
    cut_parts(s, pool, base, used, r, Span::ALL);
}

// From here on the cuts are counted, by the same way that makes them. One walk for both would take what it does at each step as a closure, whose clauses would
// say of the pool and of the room what it gives.
//
// The room that the mapping's part leaves: one less, unless there is none to cut. No room stays none, here and below.
fn room_in_part(m: Mapping, r: usize, span: Span, room: usize) -> usize
    requires { Fits (whole m) }
    ensures { result ≡ room - non_empty (part_of m r span.begin span.end) }
{
    match part_of(m, r, span) {
        Some(part) if part.len != 0 => room.saturating_sub(1),
        _ => room,
    }
}

// The room that the parts of region r's mappings leave.
fn room_in_parts(s: &Space, r: usize, span: Span, room: usize) -> usize
    requires { Passing s.now }
    ensures { result ≡ room - non_empty (parts s.now r span.begin span.end) }
{
    let mut left = room;
    for slot in &s.maplist[..s.mapcount] {
        left = room_in_part(s.mappings[*slot], r, span, left);
    }
    left
}

// The room that the children within the range leave, with so much depth left.
fn room_in_children(s: &Space, r: usize, span: Span, depth: usize, room: usize) -> usize
    requires { Passing s.now }
    ensures { result ≡ room - non_empty (children s.now depth r span.begin span.end) }
{
    if depth == 0 {
        return room;
    }
    let mut left = room;
    for slot in &s.reglist[..s.regcount] {
        if !vmar_doom::is_child_in(s.regions[*slot], r, span.begin, span.end) {
            continue;
        }
        left = room_in_children(s, *slot, Span::ALL, depth - 1, left);
        left = room_in_parts(s, *slot, Span::ALL, left);
    }
    left
}

// Whether there are four free frames for each mapping that unmap and overwrite cut or drop.
pub fn has_frames_for_unmap(s: &Space, r: usize, span: Span, free: usize) -> bool
    requires { Passing s.now }
    ensures { result ≡ leb (4 * non_empty (unmap_cuts s.now r span.begin span.end)) free }
{
    let own = room_in_parts(s, r, span, free / 4 + 1);
    0 < room_in_children(s, r, span, REGIONS, own)
}

// The same for destroy and clear.
pub fn has_frames_for_destroy(s: &Space, r: usize, free: usize) -> bool
    requires { Passing s.now }
    ensures { result ≡ leb (4 * non_empty (destroy_cuts s.now r)) free }
{
    let below = room_in_children(s, r, Span::ALL, REGIONS, free / 4 + 1);
    0 < room_in_parts(s, r, Span::ALL, below)
}
