// kernel-hal/src/utils/page_table.rs: `map`, with what it needs of `get_entry_mut_or_create`, on a well-formed table. Whether it can be done is
// decided before anything is written: a refused map leaves every word as it was.
#![tactic(auto)]

ghost use Rattle.std.specs.Prelude.{◌≡◌, ◌+◌, ◌-◌, ◌*◌, ◌/◌, ◌≤◌, ◌<◌, length};
ghost use Rattle.common.specs.Page.{level_of};
ghost use Rattle.form.specs.Form.{Good};
ghost use Rattle.table_map.specs.Map.{Room, grown, under, filled, mapped};

use common::defs::{MMUFlags, PhysAddr, VirtAddr};
use common::vm::PageSize;
use refusal::Refusal;
use walk::{OpenEntry, Walk};
use x86_64::vm::X86PTE;

// The level at which a leaf of the size stands.
pub fn level_of(size: PageSize) -> usize
    ensures { result ≡ level_of size }
{
    match size {
        PageSize::Size4K => 0,
        PageSize::Size2M => 1,
        PageSize::Size1G => 2,
    }
}

// Puts frame `next`, zeroed, under an unused entry as its table; answers the address's entry in it.
fn create_table(
    pool: &mut [u64],
    base: u64,
    next: usize,
    vaddr: VirtAddr,
    spot: OpenEntry,
) -> OpenEntry
    requires room { Room (length pool.old) base spot }
    requires below { (0 < spot.level) × (next * 512 + 512 ≤ length pool.old) }
    ensures { (pool.new ≡ grown pool.old (base / 4096) next spot) × (result ≡ under next vaddr spot) }
{
    let level = spot.level - 1;
    pool::zero_frame(pool, next);
    let entry = X86PTE::UNUSED.set_table(base + 4096 * (next as u64));
    pool::set_entry(pool, spot.frame, spot.place, entry.0);
    OpenEntry {
        level,
        frame: next,
        place: walk::index_at(level, vaddr),
    }
}

// Tables from an unused entry down to level `target`, in frames from `next` on, and the word in the last.
fn fill(
    pool: &mut [u64],
    base: u64,
    next: usize,
    vaddr: VirtAddr,
    spot: OpenEntry,
    target: usize,
    word: u64,
)
    requires room { Room (length pool.old) base spot }
    requires reached { (target ≤ spot.level) × ((next + (spot.level - target)) * 512 ≤ length pool.old) }
    ensures { pool.new ≡ filled (spot.level - target) pool.old (base / 4096) next vaddr spot word }
{
    if spot.level <= target {
        pool::set_entry(pool, spot.frame, spot.place, word);
        return;
    }
    let below = create_table(pool, base, next, vaddr, spot);
    fill(pool, base, next + 1, vaddr, below, target, word);
}

// The frames in use afterwards.
pub fn map(
    pool: &mut [u64],
    base: u64,
    used: usize,
    vaddr: VirtAddr,
    paddr: PhysAddr,
    size: PageSize,
    flags: MMUFlags,
) -> Result<usize, Refusal>
    requires { Good pool.old base used }
    ensures { record { result = result; pool = pool.new } ≡ mapped pool.old (base / 4096) used vaddr paddr size flags.0 }
{
    let Walk::Open(spot) = walk::get_entry(pool, base, used, vaddr) else {
        return Err(Refusal::AlreadyMapped);
    };
    let target = level_of(size);
    if spot.level < target {
        return Err(Refusal::AlreadyMapped);
    }
    let need = spot.level - target;
    if pool.len() / 512 - used < need {
        return Err(Refusal::NoFrames);
    }
    fill(
        pool,
        base,
        used,
        vaddr,
        spot,
        target,
        X86PTE::leaf(paddr, flags, size).0,
    );
    Ok(used + need)
}
