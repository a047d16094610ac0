// kernel-hal/src/utils/page_table.rs: `query`, `unmap` and `update` on a well-formed table. Nothing here tests the table or the
// arguments: crate page_table does, and calls these. A pool goes as its words, its base and the frames in use (docs/DECISIONS.md, 'Shape').
#![tactic(auto)]

ghost use Rattle.std.specs.Prelude.{◌≡◌, ◌/◌};
ghost use Rattle.form.specs.Form.{Good};
ghost use Rattle.table.specs.Table.{queried, unmapped, updated, misplaced, new_addr, new_word};

use common::defs::{MMUFlags, PhysAddr, VirtAddr};
use common::vm::PageSize;
use refusal::Refusal;
use walk::Walk;
use x86_64::vm::X86PTE;

// The physical address of the byte, the flags and the size of its page.
pub fn query(
    pool: &[u64],
    base: u64,
    used: usize,
    vaddr: VirtAddr,
) -> Result<(PhysAddr, MMUFlags, PageSize), Refusal>
    requires { Good pool.now base used }
    ensures { result ≡ queried pool.now (base / 4096) vaddr }
{
    let Walk::Leaf(leaf) = walk::get_entry(pool, base, used, vaddr) else {
        return Err(Refusal::NotMapped);
    };
    let entry = X86PTE(pool::entry_at(pool, leaf.frame, leaf.place));
    Ok((
        entry.addr() + leaf.size.page_offset(vaddr),
        entry.flags(),
        leaf.size,
    ))
}

// The address and the size of the leaf that is gone.
pub fn unmap(
    pool: &mut [u64],
    base: u64,
    used: usize,
    vaddr: VirtAddr,
) -> Result<(PhysAddr, PageSize), Refusal>
    requires { Good pool.old base used }
    ensures { record { result = result; pool = pool.new } ≡ unmapped pool.old (base / 4096) vaddr }
{
    let Walk::Leaf(leaf) = walk::get_entry(pool, base, used, vaddr) else {
        return Err(Refusal::NotMapped);
    };
    let entry = X86PTE(pool::entry_at(pool, leaf.frame, leaf.place));
    pool::set_entry(pool, leaf.frame, leaf.place, X86PTE::UNUSED.0);
    Ok((entry.addr(), leaf.size))
}

// Whether a new address is not one that a leaf of the size can have.
fn is_misplaced(paddr: Option<PhysAddr>, size: PageSize) -> bool
    ensures { result ≡ misplaced paddr size }
{
    match paddr {
        Some(p) => !size.is_aligned(p) || 0x10_0000_0000_0000 - size.size() < p,
        None => false,
    }
}

fn moved_entry(entry: X86PTE, paddr: Option<PhysAddr>) -> X86PTE
    ensures { result.0 ≡ new_addr entry.0 paddr }
{
    match paddr {
        Some(p) => entry.set_addr(p),
        None => entry,
    }
}

fn new_entry(
    entry: X86PTE,
    size: PageSize,
    paddr: Option<PhysAddr>,
    flags: Option<MMUFlags>,
) -> X86PTE
    ensures { result.0 ≡ new_word entry.0 size paddr flags }
{
    let moved = moved_entry(entry, paddr);
    match flags {
        Some(f) => moved.set_flags(f, size.is_huge()),
        None => moved,
    }
}

// A new physical address, new page flags, or both; the size of the leaf that was changed.
pub fn update(
    pool: &mut [u64],
    base: u64,
    used: usize,
    vaddr: VirtAddr,
    paddr: Option<PhysAddr>,
    flags: Option<MMUFlags>,
) -> Result<PageSize, Refusal>
    requires { Good pool.old base used }
    ensures { record { result = result; pool = pool.new } ≡ updated pool.old (base / 4096) vaddr paddr flags }
{
    let Walk::Leaf(leaf) = walk::get_entry(pool, base, used, vaddr) else {
        return Err(Refusal::NotMapped);
    };
    if is_misplaced(paddr, leaf.size) {
        return Err(Refusal::InvalidArgs);
    }
    let entry = X86PTE(pool::entry_at(pool, leaf.frame, leaf.place));
    let new = new_entry(entry, leaf.size, paddr, flags);
    pool::set_entry(pool, leaf.frame, leaf.place, new.0);
    Ok(leaf.size)
}
