// zircon-object/src/vm/vmar.rs: `protect`, on a space that passes its check and a good pool. The space's records do not change: a protect writes page flags and leaves.
#![tactic(auto)]

ghost use Rattle.std.specs.Prelude.{◌≡◌, ◌+◌, ◌-◌, ◌*◌, ◌/◌, ◌^◌, ◌≤◌, ◌<◌, length};
ghost use Rattle.form.specs.Form.{Good};
ghost use Rattle.space.specs.Passes.{Passes, Paged, LiveIn};
ghost use Rattle.vmar_protect.specs.Protect.{touches, child_touched, changed, part_in, total, denies, denied, with_rights, lent, page_done, pages_done, mapping_done, mappings_done, done, in_region, protected};

use common::defs::{MMUFlags, PAGE_SIZE, VirtAddr};
use refusal::Refusal;
use space::{LAST, Mapping, Part, Space};
use std::ops::Range;

// What stays of page flags when READ, WRITE and EXECUTE are taken away.
const KEPT: u8 = 0xe3;

// Whether p belongs to region r and touches the range, ends included.
#[tactic(auto, using(std::proofs::lemmas::Bool::Decides::nat_tests), unfolding(crate::specs::Protect::touches))]
fn is_touching<P: Part>(p: P, r: usize, begin: VirtAddr, end: VirtAddr) -> bool
    requires { P.addr p + P.size p < 2 ^ 64 }
    ensures { result ≡ touches (P.owner p) r (P.addr p) (P.size p) begin end }
{
    p.owner() == r && begin <= p.addr() + p.size() && p.addr() <= end
}

// Whether some child of region r touches the range.
fn is_child_touching(s: &Space, r: usize, begin: VirtAddr, end: VirtAddr) -> bool
    requires { LiveIn s.now r }
    ensures { result ≡ child_touched s.now r begin end }
{
    for slot in &s.reglist[..s.regcount] {
        if is_touching(s.regions[*slot], r, begin, end) {
            return true;
        }
    }
    false
}

// What the mapping adds to the length that region r's mappings cover.
#[tactic(auto, unfolding(crate::specs::Protect::part_in, crate::specs::Protect::part_from, crate::specs::Protect::part_to))]
fn part_in(m: Mapping, r: usize, begin: VirtAddr, end: VirtAddr) -> u64
    requires { (m.addr + m.size < 2 ^ 64) × (begin ≤ end) }
    ensures { result ≡ part_in m r begin end }
{
    if !is_touching(m, r, begin, end) {
        return 0;
    }
    end.min(m.addr + m.size) - begin.max(m.addr)
}

// How much of the range region r's touching mappings cover.
fn covered(s: &Space, r: usize, begin: VirtAddr, end: VirtAddr) -> u64
    requires { LiveIn s.now r × (begin ≤ end) }
    ensures { result ≡ total s.now r begin end s.now.mapcount }
{
    let mut sum = 0;
    for slot in &s.maplist[..s.mapcount] {
        sum += part_in(s.mappings[*slot], r, begin, end);
    }
    sum
}

// Whether the mapping is one of region r that touches and does not grant the rights, as the Rust's `is_valid_mapping_flags` asks.
#[tactic(auto, unfolding(crate::specs::Protect::denies))]
fn is_denying(m: Mapping, r: usize, begin: VirtAddr, end: VirtAddr, flags: MMUFlags) -> bool
    requires { m.addr + m.size < 2 ^ 64 }
    ensures { result ≡ denies m r begin end flags.0 }
{
    let rights = MMUFlags(flags.0 & MMUFlags::RXW.0);
    is_touching(m, r, begin, end) && !MMUFlags(m.permissions).contains(rights)
}

// Whether some touching mapping of region r does not grant the rights.
fn is_denied(s: &Space, r: usize, begin: VirtAddr, end: VirtAddr, flags: MMUFlags) -> bool
    requires { LiveIn s.now r }
    ensures { result ≡ denied s.now r begin end flags.0 }
{
    for slot in &s.maplist[..s.mapcount] {
        if is_denying(s.mappings[*slot], r, begin, end, flags) {
            return true;
        }
    }
    false
}

// Page flags with other rights.
fn with_rights(old: u8, flags: MMUFlags) -> u8
    ensures { result ≡ with_rights old flags.0 }
{
    (old & KEPT) | (flags.0 & MMUFlags::RXW.0) as u8
}

// The pages of the mapping that lie in the range which it touches.
#[tactic(auto, unfolding(crate::specs::Protect::part_from, crate::specs::Protect::part_to))]
fn changed_pages(m: Mapping, begin: VirtAddr, end: VirtAddr) -> Range<usize>
    requires { Paged m × (begin ≤ end) × (begin ≤ m.addr + m.size) × (m.addr ≤ end) }
    ensures first { result.start ≡ (changed m begin end).first }
    ensures count { result.end ≡ (changed m begin end).first + (changed m begin end).count }
{
    let from = begin.max(m.addr);
    let len = end.min(m.addr + m.size) - from;
    let first = ((from - m.addr) / PAGE_SIZE) as usize;
    first..first + (len / PAGE_SIZE) as usize
}

// The page of the mapping in this slot gets the rights, and so does the leaf over it; where there is none the table stays.
fn protect_page(
    pages: &mut [u8],
    pool: &mut [u64],
    base: u64,
    used: usize,
    m: Mapping,
    slot: usize,
    page: usize,
    flags: MMUFlags,
)
    requires { (length pages.old ≡ 32768) × Good pool.old base used × (slot < 64) × (page < 512) × (m.addr + page * 4096 < 2 ^ 64) }
    ensures { lent pages.new pool.new ≡ page_done (lent pages.old pool.old) (base / 4096) m slot flags.0 page }
{
    let at = slot * 512 + page;
    let new = with_rights(pages[at], flags);
    pages[at] = new;
    let vaddr = m.addr + page as u64 * PAGE_SIZE;
    let _ = table::update(pool, base, used, vaddr, None, Some(MMUFlags(new as u64)));
}

// The changed pages of the mapping in this slot, in their order.
fn protect_mapping(
    pages: &mut [u8],
    pool: &mut [u64],
    base: u64,
    used: usize,
    m: Mapping,
    slot: usize,
    changed: Range<usize>,
    flags: MMUFlags,
)
    requires { (length pages.old ≡ 32768) × Good pool.old base used × (slot < 64) × Paged m × (changed.start ≤ changed.end) × (changed.end ≤ m.size / 4096) }
    ensures { lent pages.new pool.new ≡ pages_done (lent pages.old pool.old) (base / 4096) m slot flags.0 changed.start (changed.end - changed.start) }
{
    let Range { start, end } = changed;
    for page in start..end {
        protect_page(pages, pool, base, used, m, slot, page, flags);
    }
}

// The mapping at place k, where it is one of region r that touches.
fn protect_place(
    s: &Space,
    pages: &mut [u8],
    pool: &mut [u64],
    base: u64,
    used: usize,
    r: usize,
    begin: VirtAddr,
    end: VirtAddr,
    flags: MMUFlags,
    k: usize,
)
    requires { LiveIn s.now r × (length pages.old ≡ 32768) × Good pool.old base used × (begin ≤ end) × (k < s.now.mapcount) }
    ensures { lent pages.new pool.new ≡ mapping_done (lent pages.old pool.old) (base / 4096) s.now r begin end flags.0 k }
{
    let slot = s.maplist[k];
    let m = s.mappings[slot];
    if !is_touching(m, r, begin, end) {
        return;
    }
    let changed = changed_pages(m, begin, end);
    protect_mapping(pages, pool, base, used, m, slot, changed, flags);
}

// The region's touching mappings, in the list's order.
fn protect_all(
    s: &Space,
    pages: &mut [u8],
    pool: &mut [u64],
    base: u64,
    used: usize,
    r: usize,
    begin: VirtAddr,
    end: VirtAddr,
    flags: MMUFlags,
)
    requires { LiveIn s.now r × (length pages.old ≡ 32768) × Good pool.old base used × (begin ≤ end) }
    ensures { lent pages.new pool.new ≡ mappings_done (lent pages.old pool.old) (base / 4096) s.now r begin end flags.0 s.now.mapcount }
{
    for k in 0..s.mapcount {
        protect_place(s, pages, pool, base, used, r, begin, end, flags, k);
    }
}

#[tactic(auto, using(std::proofs::lemmas::Bool::Decides::nat_tests), unfolding(crate::specs::Protect::in_region))]
fn protect_in(
    s: &Space,
    pages: &mut [u8],
    pool: &mut [u64],
    base: u64,
    used: usize,
    r: usize,
    begin: VirtAddr,
    len: u64,
    flags: MMUFlags,
) -> Result<(), Refusal>
    requires { LiveIn s.now r × (length pages.old ≡ 32768) × Good pool.old base used × (begin + len < 2 ^ 64) }
    ensures { done result (lent pages.new pool.new) ≡ in_region s.now (lent pages.old pool.old) (base / 4096) r begin len flags.0 }
{
    let end = begin + len;
    if is_child_touching(s, r, begin, end) {
        return Err(Refusal::InvalidArgs);
    }
    if covered(s, r, begin, end) != len {
        return Err(Refusal::NotFound);
    }
    if is_denied(s, r, begin, end, flags) {
        return Err(Refusal::AccessDenied);
    }
    protect_all(s, pages, pool, base, used, r, begin, end, flags);
    Ok(())
}

// Gives the pages of the range the rights of the flags.
#[tactic(auto, using(std::proofs::lemmas::Bool::Decides::nat_tests), unfolding(crate::specs::Protect::protected))]
pub fn protect(
    s: &Space,
    pages: &mut [u8],
    pool: &mut [u64],
    base: u64,
    used: usize,
    id: u64,
    begin: VirtAddr,
    len: u64,
    flags: MMUFlags,
) -> Result<(), Refusal>
    requires { Passes s.now pages.old × Good pool.old base used }
    ensures { done result (lent pages.new pool.new) ≡ protected s.now (lent pages.old pool.old) (base / 4096) id begin len flags.0 }
{
    if s.nextid <= id {
        return Err(Refusal::BadHandle);
    }
    if !flags.is_known() || !vm::page_aligned(begin) || !vm::page_aligned(len) {
        return Err(Refusal::InvalidArgs);
    }
    let r = vmar_offset::slot_of(s, id).ok_or(Refusal::BadState)?;
    if !space::sum_le(begin, len, LAST) {
        return Err(Refusal::InvalidArgs);
    }
    protect_in(s, pages, pool, base, used, r, begin, len, flags)
}
