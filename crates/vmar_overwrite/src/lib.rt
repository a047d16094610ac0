// zircon-object/src/vm/vmar.rs: the half of `map_ext` that overwrites, with `map_range` false, on a space that passes its check and a good pool. Where nothing is met it
// places the mapping as the other half does; else it cuts the range out of the region first.
#![tactic(auto)]

ghost use Rattle.std.specs.Prelude.{◌≡◌, ℕ, true, ◌+◌, ◌*◌, ◌/◌, ◌%◌, ◌^◌, ◌≤◌, ◌<◌, leb, length};
ghost use Rattle.common.specs.Flags.{known_page};
ghost use Rattle.form.specs.Form.{Good};
ghost use Rattle.scan.specs.Scan.{first, below};
ghost use Rattle.space.specs.Space.{region_at, with_mapping};
ghost use Rattle.space.specs.Passes.{Passes, Passing, LiveIn};
ghost use Rattle.vmar_offset.specs.Offset.{is_free_mapping};
ghost use Rattle.vmar_cuts.specs.Cuts.{PageRange};
ghost use Rattle.vmar_map.specs.Map.{filled};
ghost use Rattle.vmar_unmap.specs.Unmap.{state};
ghost use Rattle.vmar_overwrite.specs.Overwrite.{done, new_slot, is_short, replaced, overlaid, at_offset, in_region, overwritten};

use common::defs::{MMUFlags, PAGE_SIZE, VirtAddr};
use refusal::Refusal;
use space::{MAPPINGS, MOST, Mapping, Space};
use vmar_cuts::Span;
use vmar_map::MapArgs;

// The lowest free mapping slot from this one on.
fn free_from(s: &Space, from: usize) -> Option<usize>
    ensures { result ≡ below 64 (first (is_free_mapping s.now) from 64) }
{
    for i in from..MAPPINGS {
        if !s.mappings[i].live {
            return Some(i);
        }
    }
    None
}

// The new mapping's slot where the range is cut out of region r: a split takes the lowest free one.
fn new_slot(s: &Space, r: usize, begin: VirtAddr, end: VirtAddr) -> Option<usize>
    requires { Passing s.now }
    ensures { result ≡ below 64 (new_slot s.now r begin end) }
{
    let slot = vmar_offset::free_mapping(s)?;
    match vmar_prune::split_slot(s, r, begin, end) {
        Some(_) => free_from(s, slot + 1),
        None => Some(slot),
    }
}

// Whether a mapping of this length is too long, or has no slot.
#[tactic(auto, using(std::proofs::lemmas::Bool::Decides::nat_tests), unfolding(crate::specs::Overwrite::is_short))]
fn is_short(len: u64, slot: Option<usize>) -> bool
    ensures { (n : ℕ) → slot ≡ below 64 n → result ≡ is_short len n }
{
    MOST < len || slot.is_none()
}

// The mapping goes to its slot, and its pages get the flags.
fn put(s: &mut Space, pages: &mut [u8], slot: usize, m: Mapping, flags: MMUFlags)
    requires { (slot < 64) × (s.old.mapcount < 64) × (m.size ≤ 0x200000) × (length pages.old ≡ 32768) × (known_page flags.0 ≡ true) }
    ensures { (s.new ≡ with_mapping s.old slot m) × (pages.new ≡ filled pages.old (slot * 512) (m.size / 4096) flags.0) }
{
    vmar_map::fill(
        pages,
        slot * 512,
        (m.size / PAGE_SIZE) as usize,
        flags.0 as u8,
    );
    s.add_mapping(slot, m);
}

// Cuts the range of the mapping out of its region and puts it there.
fn replace(
    s: &mut Space,
    pages: &mut [u8],
    pool: &mut [u64],
    base: u64,
    used: &mut usize,
    m: Mapping,
    flags: MMUFlags,
) -> Result<VirtAddr, Refusal>
    requires { Passes s.old pages.old × Good pool.old base used.old × PageRange m.addr (m.addr + m.size) × (m.addr + m.size < 2 ^ 64) × (known_page flags.0 ≡ true) }
    ensures { done result s.new pages.new pool.new used.new ≡ replaced base (state s.old pages.old pool.old used.old) m flags.0 }
{
    if m.size == 0 {
        return Err(Refusal::InvalidArgs);
    }
    let end = m.addr + m.size;
    let slot = new_slot(s, m.region, m.addr, end);
    let is_short = is_short(m.size, slot);
    let span = Span { begin: m.addr, end };
    vmar_unmap::unmap_inner(s, pages, pool, base, used, m.region, span, is_short)?;
    put(s, pages, slot.unwrap(), m, flags);
    Ok(m.addr)
}

// At the offset of region r, where the range lies in the region and its address is page-aligned.
#[tactic(auto, unfolding(crate::specs::Overwrite::overlaid))]
fn overlay(
    s: &mut Space,
    pages: &mut [u8],
    pool: &mut [u64],
    base: u64,
    used: &mut usize,
    r: usize,
    offset: u64,
    m: MapArgs,
) -> Result<VirtAddr, Refusal>
    requires { LiveIn s.old r × Passes s.old pages.old × Good pool.old base used.old × (leb (offset + m.len) (region_at s.old r).size ≡ true) × (((region_at s.old r).addr + offset) % 4096 ≡ 0) × (m.len % 4096 ≡ 0) × (known_page m.flags.0 ≡ true) }
    ensures { done result s.new pages.new pool.new used.new ≡ overlaid base (state s.old pages.old pool.old used.old) r offset m.vmo.id m.vmo_offset m.len m.permissions.0 m.flags.0 }
{
    if vmar_offset::test_map(s, r, offset, m.len) {
        return vmar_map::place(s, pages, r, offset, m);
    }
    let mapping = Mapping {
        live: true,
        region: r,
        addr: s.regions[r].addr + offset,
        size: m.len,
        vmo: m.vmo.id,
        offset: m.vmo_offset,
        permissions: m.permissions.0,
    };
    replace(s, pages, pool, base, used, mapping, m.flags)
}

// At the offset of the live region r.
#[tactic(auto, using(std::proofs::lemmas::Bool::Decides::nat_tests), unfolding(crate::specs::Overwrite::at_offset))]
fn at_offset(
    s: &mut Space,
    pages: &mut [u8],
    pool: &mut [u64],
    base: u64,
    used: &mut usize,
    r: usize,
    offset: u64,
    m: MapArgs,
) -> Result<VirtAddr, Refusal>
    requires { LiveIn s.old r × Passes s.old pages.old × Good pool.old base used.old × (m.len % 4096 ≡ 0) × (known_page m.flags.0 ≡ true) }
    ensures { done result s.new pages.new pool.new used.new ≡ at_offset base (state s.old pages.old pool.old used.old) r offset m.vmo.id m.vmo_offset m.len m.permissions.0 m.flags.0 }
{
    if !vm::page_aligned(offset) {
        return Err(Refusal::InvalidArgs);
    }
    let region = s.regions[r];
    if !space::sum_le(offset, m.len, region.size) {
        return Err(Refusal::InvalidArgs);
    }
    if !vm::page_aligned(region.addr + offset) {
        return Err(Refusal::InvalidArgs);
    }
    overlay(s, pages, pool, base, used, r, offset, m)
}

// In the region of this id, unless it is dead or no offset is given.
#[tactic(auto, using(std::proofs::lemmas::Bool::Decides::nat_tests), unfolding(crate::specs::Overwrite::in_region))]
fn overwrite_in(
    s: &mut Space,
    pages: &mut [u8],
    pool: &mut [u64],
    base: u64,
    used: &mut usize,
    id: u64,
    offset: Option<u64>,
    m: MapArgs,
) -> Result<VirtAddr, Refusal>
    requires { Passes s.old pages.old × Good pool.old base used.old × (m.len % 4096 ≡ 0) × (known_page m.flags.0 ≡ true) }
    ensures { done result s.new pages.new pool.new used.new ≡ in_region base (state s.old pages.old pool.old used.old) id offset m.vmo.id m.vmo_offset m.len m.permissions.0 m.flags.0 }
{
    let r = vmar_offset::slot_of(s, id).ok_or(Refusal::BadState)?;
    let at = offset.ok_or(Refusal::InvalidArgs)?;
    at_offset(s, pages, pool, base, used, r, at, m)
}

// Maps at the offset, whatever stands there.
#[tactic(auto, using(std::proofs::lemmas::Bool::Decides::nat_tests), unfolding(crate::specs::Overwrite::overwritten))]
pub fn map_overwrite(
    s: &mut Space,
    pages: &mut [u8],
    pool: &mut [u64],
    base: u64,
    used: &mut usize,
    id: u64,
    offset: Option<u64>,
    m: MapArgs,
    allow_faults: bool,
) -> Result<VirtAddr, Refusal>
    requires { Passes s.old pages.old × Good pool.old base used.old }
    ensures { done result s.new pages.new pool.new used.new ≡ overwritten base (state s.old pages.old pool.old used.old) id offset m.vmo.id m.vmo.len m.vmo_offset m.len m.permissions.0 m.flags.0 allow_faults }
{
    if s.nextid <= id {
        return Err(Refusal::BadHandle);
    }
    if !m.permissions.is_known() || !m.flags.is_known() {
        return Err(Refusal::InvalidArgs);
    }
    vmar_map::test_args(m, allow_faults)?;
    overwrite_in(s, pages, pool, base, used, id, offset, m)
}
