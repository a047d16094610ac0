// zircon-object/src/vm/vmar.rs: `get_mapping_flags` and `get_vaddr_flags` in a live region of a space that passes its check. Both descend to the mapping that
// holds the address; what they do there stands apart from the descent.
#![tactic(auto)]

ghost use Rattle.std.specs.Prelude.{◌≡◌, ℕ, ◌<◌, ◌/◌, length, get_or};
ghost use Rattle.form.specs.Form.{Good};
ghost use Rattle.space.specs.Passes.{Passes, LiveIn};
ghost use Rattle.vmar_lookup.specs.Lookup.{owned, first_holding, look, mapping_flags, vaddr_flags};

use common::defs::{MMUFlags, PAGE_SIZE, VirtAddr};
use refusal::Refusal;
use space::{Part, REGIONS, Space};

// Whether p belongs to region r and holds the address.
#[tactic(auto, using(std::proofs::lemmas::Bool::Decides::nat_tests), unfolding(crate::specs::Lookup::owned))]
fn is_owned<P: Part>(p: P, r: usize, vaddr: VirtAddr) -> bool
    ensures { result ≡ owned (P.owner p) r (P.addr p) (P.size p) vaddr }
{
    p.owner() == r && space::contains(p.addr(), p.size(), vaddr)
}

// The slot of the first listed part of region r that holds the address.
fn first_holding<P: Part>(parts: &[P], list: &[usize], r: usize, vaddr: VirtAddr) -> Option<usize>
    requires { (k : ℕ) → k < length list.now → get_or list.now k 0 < length parts.now }
    ensures { (d : P) → result ≡ first_holding P.owner P.addr P.size parts.now list.now d r vaddr }
{
    for slot in list {
        if is_owned(parts[*slot], r, vaddr) {
            return Some(*slot);
        }
    }
    None
}

// The slot of the mapping that holds the address: in the child of region r that holds it, with so much depth left, else in the region itself.
pub fn lookup(s: &Space, r: usize, vaddr: VirtAddr, depth: usize) -> Result<usize, Refusal>
    requires { LiveIn s.now r }
    ensures { result ≡ look s.now vaddr depth r }
{
    if depth == 0 {
        return Err(Refusal::NothingThere);
    }
    let g = s.regions[r];
    if !space::contains(g.addr, g.size, vaddr) {
        return Err(Refusal::NotMapped);
    }
    let children = &s.reglist[..s.regcount];
    if let Some(child) = first_holding(&s.regions, children, r, vaddr) {
        return lookup(s, child, vaddr, depth - 1);
    }
    let mappings = &s.maplist[..s.mapcount];
    first_holding(&s.mappings, mappings, r, vaddr).ok_or(Refusal::NothingThere)
}

// The flags that the mapping gives the page.
pub fn get_mapping_flags(
    s: &Space,
    flags: &[u8],
    r: usize,
    vaddr: VirtAddr,
) -> Result<MMUFlags, Refusal>
    requires { LiveIn s.now r × Passes s.now flags.now }
    ensures { result ≡ mapping_flags s.now flags.now vaddr r }
{
    let slot = lookup(s, r, vaddr, REGIONS)?;
    let page = ((vaddr - s.mappings[slot].addr) / PAGE_SIZE) as usize;
    let f = flags[slot * 512 + page];
    Ok(MMUFlags(f as u64))
}

// The flags that the table holds for the page of a mapping.
pub fn get_vaddr_flags(
    s: &Space,
    pool: &[u64],
    base: u64,
    used: usize,
    r: usize,
    vaddr: VirtAddr,
) -> Result<MMUFlags, Refusal>
    requires { LiveIn s.now r × Good pool.now base used }
    ensures { result ≡ vaddr_flags s.now pool.now (base / 4096) vaddr r }
{
    lookup(s, r, vaddr, REGIONS)?;
    let (_, flags, _) = table::query(pool, base, used, vaddr)?;
    Ok(flags)
}
