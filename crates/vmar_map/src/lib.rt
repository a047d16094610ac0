// zircon-object/src/vm/vmar.rs: the half of `map_ext` that never overwrites, with `map_range` false, on a space that passes its check.
#![tactic(auto)]

ghost use Rattle.std.specs.Prelude.{◌≡◌, true, ◌+◌, ◌*◌, ◌%◌, ◌≤◌, leb, length};
ghost use Rattle.common.specs.Flags.{known_page};
ghost use Rattle.space.specs.Space.{region_at};
ghost use Rattle.space.specs.Passes.{Passes, LiveIn};
ghost use Rattle.vmar_map.specs.Map.{done, filled, tested, placed, mapped};

use common::defs::{MMUFlags, PAGE_SIZE, VirtAddr};
use refusal::Refusal;
use space::{LAST, MOST, Mapping, Space};

// A VMO: its id and its length in bytes.
#[derive(Clone, Copy)]
pub struct Vmo {
    pub id: u64,
    pub len: u64,
}

// What is mapped: a range of a VMO, the rights that its pages may have, and their flags. The mapping that it becomes is made where it is placed, here and in
// vmar_overwrite: their promises say what each makes.
#[derive(Clone, Copy)]
pub struct MapArgs {
    pub vmo: Vmo,
    pub vmo_offset: u64,
    pub len: u64,
    pub permissions: MMUFlags,
    pub flags: MMUFlags,
}

// The n bytes from `at` on become b.
pub fn fill(flags: &mut [u8], at: usize, n: usize, b: u8)
    requires { at + n ≤ length flags.old }
    ensures { flags.new ≡ filled flags.old at n b }
{
    flags[at..at + n].fill(b);
}

// The tests of `map_ext` that ask nothing of the space.
#[tactic(auto, using(std::proofs::lemmas::Bool::Decides::nat_tests), unfolding(crate::specs::Map::tested))]
pub fn test_args(m: MapArgs, allow_faults: bool) -> Result<(), Refusal>
    ensures { result ≡ tested m.vmo.len m.vmo_offset m.len m.permissions.0 m.flags.0 allow_faults }
{
    if !vm::page_aligned(m.vmo_offset) {
        return Err(Refusal::InvalidArgs);
    }
    if !vm::page_aligned(m.len) {
        return Err(Refusal::InvalidArgs);
    }
    if !space::sum_le(m.vmo_offset, m.len, LAST) {
        return Err(Refusal::InvalidArgs);
    }
    let rights = MMUFlags(m.flags.0 & MMUFlags::RXW.0);
    if !m.permissions.contains(rights) {
        return Err(Refusal::AccessDenied);
    }
    if allow_faults || space::sum_le(m.vmo_offset, m.len, m.vmo.len) {
        Ok(())
    } else {
        Err(Refusal::InvalidArgs)
    }
}

// The mapping at the offset of region r, where its address is page-aligned, it is short enough and a slot is left: its address.
#[tactic(auto, using(std::proofs::lemmas::Bool::Decides::nat_tests), unfolding(crate::specs::Map::placed))]
pub fn place(
    s: &mut Space,
    pages: &mut [u8],
    r: usize,
    offset: u64,
    m: MapArgs,
) -> Result<VirtAddr, Refusal>
    requires { LiveIn s.old r × (leb (offset + m.len) (region_at s.old r).size ≡ true) × (m.len % 4096 ≡ 0) × (known_page m.flags.0 ≡ true) × (length pages.old ≡ 32768) }
    ensures { done result s.new pages.new ≡ placed s.old pages.old r offset m.vmo.id m.vmo_offset m.len m.permissions.0 m.flags.0 }
{
    let addr = s.regions[r].addr + offset;
    if !vm::page_aligned(addr) {
        return Err(Refusal::InvalidArgs);
    }
    if MOST < m.len {
        return Err(Refusal::NoSlot);
    }
    let slot = vmar_offset::free_mapping(s).ok_or(Refusal::NoSlot)?;
    let mapping = Mapping {
        live: true,
        region: r,
        addr,
        size: m.len,
        vmo: m.vmo.id,
        offset: m.vmo_offset,
        permissions: m.permissions.0,
    };
    s.add_mapping(slot, mapping);
    fill(
        pages,
        slot * 512,
        (m.len / PAGE_SIZE) as usize,
        m.flags.0 as u8,
    );
    Ok(addr)
}

// Maps without overwriting, at the offset, or where there is room: the mapping's address.
#[tactic(auto, using(std::proofs::lemmas::Bool::Decides::nat_tests), unfolding(crate::specs::Map::mapped))]
pub fn map(
    s: &mut Space,
    pages: &mut [u8],
    id: u64,
    offset: Option<u64>,
    m: MapArgs,
    allow_faults: bool,
) -> Result<VirtAddr, Refusal>
    requires { Passes s.old pages.old }
    ensures { done result s.new pages.new ≡ mapped s.old pages.old id offset m.vmo.id m.vmo.len m.vmo_offset m.len m.permissions.0 m.flags.0 allow_faults }
{
    if s.nextid <= id {
        return Err(Refusal::BadHandle);
    }
    if !m.permissions.is_known() {
        return Err(Refusal::InvalidArgs);
    }
    if !m.flags.is_known() {
        return Err(Refusal::InvalidArgs);
    }
    test_args(m, allow_faults)?;
    let r = vmar_offset::slot_of(s, id).ok_or(Refusal::BadState)?;
    let at = vmar_offset::determine_offset(s, r, offset, m.len, PAGE_SIZE)?;
    place(s, pages, r, at, m)
}
