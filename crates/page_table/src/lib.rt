// kernel-hal/src/utils/page_table.rs: `map`, `unmap`, `update` and `query` on any pool and any argument. Each tests what it takes, in document 01's
// order, and then calls its core; a refused call changes no word.
#![tactic(auto)]

ghost use Rattle.std.specs.Prelude.{◌≡◌};
ghost use Rattle.paging.specs.Choice.{Answered};
ghost use Rattle.form.specs.Form.{Good};
ghost use Rattle.page_table.specs.Calls.{in_rule, placed, known_new, QueryFits, UnmapFits, UpdateFits, MapFits};

use common::defs::{MMUFlags, PhysAddr, VirtAddr};
use common::vm::PageSize;
use refusal::Refusal;

// The addresses that table calls take: both halves but the top GiB.
pub fn is_in_rule(vaddr: VirtAddr) -> bool
    ensures { result ≡ in_rule vaddr }
{
    if vaddr < 0x8000_0000_0000 {
        return true;
    }
    if vaddr < 0xffff_8000_0000_0000 {
        return false;
    }
    vaddr < 0xffff_ffff_c000_0000
}

// BAD_TABLE's test.
pub fn check_table(pool: &[u64], base: u64, used: usize) -> Result<(), Refusal>
    ensures { Answered (Good pool.now base used) (Err Refusal.BadTable) (Ok tt) result }
{
    if !form::is_good(pool, base, used) {
        return Err(Refusal::BadTable);
    }
    Ok(())
}

// Whether a page of the size can stand at these addresses.
fn is_placed(vaddr: VirtAddr, paddr: PhysAddr, size: PageSize) -> bool
    ensures { result ≡ placed vaddr paddr size }
{
    size.is_aligned(vaddr) && paddr <= 0x10_0000_0000_0000 - size.size()
}

fn is_known_new(flags: Option<MMUFlags>) -> bool
    ensures { result ≡ known_new flags }
{
    match flags {
        Some(f) => f.is_known(),
        None => true,
    }
}

pub fn query(
    pool: &[u64],
    base: u64,
    used: usize,
    vaddr: VirtAddr,
) -> Result<(PhysAddr, MMUFlags, PageSize), Refusal>
    ensures { QueryFits pool.now base used vaddr result }
{
    check_table(pool, base, used)?;
    if !is_in_rule(vaddr) {
        return Err(Refusal::BadAddress);
    }
    table::query(pool, base, used, vaddr)
}

pub fn unmap(
    pool: &mut [u64],
    base: u64,
    used: usize,
    vaddr: VirtAddr,
) -> Result<(PhysAddr, PageSize), Refusal>
    ensures { UnmapFits pool.old base used vaddr (record { result = result; pool = pool.new }) }
{
    check_table(pool, base, used)?;
    if !is_in_rule(vaddr) {
        return Err(Refusal::BadAddress);
    }
    table::unmap(pool, base, used, vaddr)
}

pub fn update(
    pool: &mut [u64],
    base: u64,
    used: usize,
    vaddr: VirtAddr,
    paddr: Option<PhysAddr>,
    flags: Option<MMUFlags>,
) -> Result<PageSize, Refusal>
    ensures { UpdateFits pool.old base used vaddr paddr flags (record { result = result; pool = pool.new }) }
{
    check_table(pool, base, used)?;
    if !is_known_new(flags) {
        return Err(Refusal::InvalidArgs);
    }
    if !is_in_rule(vaddr) {
        return Err(Refusal::BadAddress);
    }
    table::update(pool, base, used, vaddr, paddr, flags)
}

pub fn map(
    pool: &mut [u64],
    base: u64,
    used: usize,
    vaddr: VirtAddr,
    paddr: PhysAddr,
    size: PageSize,
    flags: MMUFlags,
) -> Result<usize, Refusal>
    ensures { MapFits pool.old base used vaddr paddr size flags.0 (record { result = result; pool = pool.new }) }
{
    check_table(pool, base, used)?;
    if !flags.is_known() {
        return Err(Refusal::InvalidArgs);
    }
    if !is_in_rule(vaddr) {
        return Err(Refusal::BadAddress);
    }
    if !is_placed(vaddr, paddr, size) {
        return Err(Refusal::InvalidArgs);
    }
    table_map::map(pool, base, used, vaddr, paddr, size, flags)
}
