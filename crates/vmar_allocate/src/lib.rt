// zircon-object/src/vm/vmar.rs: `allocate` on a space that passes its check.
#![tactic(auto)]

ghost use Rattle.std.specs.Prelude.{◌≡◌, true, ◌+◌, leb};
ghost use Rattle.space.specs.Space.{region_at};
ghost use Rattle.space.specs.Passes.{Passing, LiveIn};
ghost use Rattle.vmar_allocate.specs.Allocate.{done, allocated, placed};

use common::defs::VmarFlags;
use refusal::Refusal;
use space::{Region, Space};

// One more than the last id that is issued.
const IDS: u64 = 0xffff_ffff;

// The child at the offset of region r, where a slot and an id are left: its id.
#[tactic(auto, using(std::proofs::lemmas::Bool::Decides::nat_tests), unfolding(crate::specs::Allocate::placed))]
fn place(s: &mut Space, r: usize, offset: u64, len: u64, flags: VmarFlags) -> Result<u64, Refusal>
    requires { LiveIn s.old r × (leb (offset + len) (region_at s.old r).size ≡ true) }
    ensures { done result s.new ≡ placed s.old r offset len flags.0 }
{
    let slot = vmar_offset::free_region(s).ok_or(Refusal::NoSlot)?;
    if IDS <= s.nextid {
        return Err(Refusal::NoSlot);
    }
    let child = Region {
        live: true,
        id: s.nextid,
        addr: s.regions[r].addr + offset,
        size: len,
        flags: flags.0,
        parent: r,
    };
    s.add_region(slot, child);
    Ok(child.id)
}

// A new region's id.
#[tactic(auto, using(std::proofs::lemmas::Bool::Decides::nat_tests), unfolding(crate::specs::Allocate::allocated))]
pub fn allocate(
    s: &mut Space,
    id: u64,
    offset: Option<u64>,
    len: u64,
    flags: VmarFlags,
    align: u64,
) -> Result<u64, Refusal>
    requires { Passing s.old }
    ensures { done result s.new ≡ allocated s.old id offset len flags.0 align }
{
    if s.nextid <= id {
        return Err(Refusal::BadHandle);
    }
    if !flags.is_known() {
        return Err(Refusal::InvalidArgs);
    }
    let r = vmar_offset::slot_of(s, id).ok_or(Refusal::BadState)?;
    let at = vmar_offset::determine_offset(s, r, offset, len, align)?;
    place(s, r, at, len, flags)
}
