// kernel-hal/src/common/vm.rs: the range calls of `GenericPageTable` on any pool and any argument. Each tests what it takes, in document 01's order, and
// then calls its core; a refused call changes no word.
#![tactic(auto)]

ghost use Rattle.std.specs.Prelude.{◌≡◌};
ghost use Rattle.generic_page_table.specs.Rules.{rule_end, range_in_rule, page_aligned, range_tested, physical_fits};
ghost use Rattle.generic_page_table.specs.Calls.{MapContFits, UnmapContFits};

use common::defs::{MMUFlags, PhysAddr, VirtAddr};
use common::vm::PageSize;
use refusal::Refusal;

// Where the part of the rule ends that the address lies in.
fn rule_end(vaddr: VirtAddr) -> VirtAddr
    ensures { result ≡ rule_end vaddr }
{
    if vaddr < 0x8000_0000_0000 {
        return 0x8000_0000_0000;
    }
    0xffff_ffff_c000_0000
}

// Whether the whole range lies where table calls may, an empty one by its start. What is left of its part is compared with the size, since the end may
// pass 64 bits.
fn is_range_in_rule(vaddr: VirtAddr, size: u64) -> bool
    ensures { result ≡ range_in_rule vaddr size }
{
    page_table::is_in_rule(vaddr) && size <= rule_end(vaddr) - vaddr
}

// Whether the range is one of whole pages.
fn is_page_aligned(vaddr: VirtAddr, size: u64) -> bool
    ensures { result ≡ page_aligned vaddr size }
{
    PageSize::Size4K.is_aligned(vaddr) && PageSize::Size4K.is_aligned(size)
}

// The tests of a range that both calls make.
fn check_range(vaddr: VirtAddr, size: u64) -> Result<(), Refusal>
    ensures { result ≡ range_tested vaddr size }
{
    if !is_range_in_rule(vaddr, size) {
        return Err(Refusal::BadAddress);
    }
    if !is_page_aligned(vaddr, size) {
        return Err(Refusal::InvalidArgs);
    }
    Ok(())
}

// Whether the frames end by 2^52.
fn is_physical(paddr: PhysAddr, size: u64) -> bool
    ensures { result ≡ physical_fits paddr size }
{
    paddr <= 0x10_0000_0000_0000 && size <= 0x10_0000_0000_0000 - paddr
}

// `map_cont` of the core, where the pool, the flags and the range are such that it can be called.
pub fn map_cont(
    pool: &mut [u64],
    base: u64,
    used: usize,
    vaddr: VirtAddr,
    size: u64,
    paddr: PhysAddr,
    flags: MMUFlags,
) -> Result<usize, Refusal>
    ensures { MapContFits pool.old base used vaddr size paddr flags.0 (record { result = result; pool = pool.new }) }
{
    page_table::check_table(pool, base, used)?;
    if !flags.is_known() {
        return Err(Refusal::InvalidArgs);
    }
    check_range(vaddr, size)?;
    if !is_physical(paddr, size) {
        return Err(Refusal::InvalidArgs);
    }
    table_map_cont::map_cont(pool, base, used, vaddr, size, paddr, flags)
}

// `unmap_cont` of the core, likewise.
pub fn unmap_cont(
    pool: &mut [u64],
    base: u64,
    used: usize,
    vaddr: VirtAddr,
    size: u64,
) -> Result<usize, Refusal>
    ensures { UnmapContFits pool.old base used vaddr size (record { result = result; pool = pool.new }) }
{
    page_table::check_table(pool, base, used)?;
    check_range(vaddr, size)?;
    table_unmap_cont::unmap_cont(pool, base, used, vaddr, size)
}
