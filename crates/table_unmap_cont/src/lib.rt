// kernel-hal/src/common/vm.rs: `unmap_cont` on a well-formed table. The frames that it needs are counted before anything is written; then the leaves
// over both ends are split, and every entry between them is emptied. A hole is passed by the span of the unused entry that makes it.
#![tactic(auto)]

ghost use Rattle.std.specs.Prelude.{◌≡◌, ◌+◌, ◌*◌, ◌/◌, ◌%◌};
ghost use Rattle.paging.specs.Level.{Within};
ghost use Rattle.form.specs.Form.{Good};
ghost use Rattle.walk.specs.Walk.{found};
ghost use Rattle.table_unmap_cont.specs.UnmapCont.{span_of, emptied, cleared, unmap_cont};

use common::defs::VirtAddr;
use refusal::Refusal;
use walk::Walk;

// Empties the entry over an address, and answers what it spans.
fn clear_entry(pool: &mut [u64], base: u64, used: usize, vaddr: VirtAddr) -> u64
    requires { Good pool.old base used }
    ensures cleared { (pool.new ≡ emptied pool.old (base / 4096) vaddr) × (result ≡ span_of (found pool.old (base / 4096) vaddr)) }
    ensures good { Good pool.new base used }
{
    match walk::get_entry(pool, base, used, vaddr) {
        Walk::Leaf(leaf) => {
            pool::set_entry(pool, leaf.frame, leaf.place, 0);
            leaf.size.size()
        }
        Walk::Open(spot) => walk::span_at(spot.level),
    }
}

// Empties every entry from one address to another. No entry is met twice, so there are no more steps than the tables have entries.
fn clear(pool: &mut [u64], base: u64, used: usize, start: VirtAddr, end: VirtAddr)
    requires good { Good pool.old base used }
    requires within { Within 4 start end }
    ensures { pool.new ≡ cleared (used * 512) pool.old (base / 4096) start end }
{
    let mut vaddr = start;
    // a step is as long as the entry that it empties: no range has these addresses
    while vaddr < end {
        let span = clear_entry(pool, base, used, vaddr);
        let left = span - vaddr % span;
        // the next entry may begin past the last address
        if end - vaddr <= left {
            return;
        }
        vaddr += left;
    }
}

// Removes whatever is mapped in the `size` bytes from `vaddr` on; of a leaf that is cut the rest is kept. The answer is the number of frames taken: so
// many more are in use afterwards.
pub fn unmap_cont(
    pool: &mut [u64],
    base: u64,
    used: usize,
    vaddr: VirtAddr,
    size: u64,
) -> Result<usize, Refusal>
    requires good { Good pool.old base used }
    requires aligned { (vaddr % 4096 ≡ 0) × (size % 4096 ≡ 0) × Within 4 vaddr (vaddr + size) }
    ensures { record { result = result; pool = pool.new } ≡ unmap_cont pool.old (base / 4096) used vaddr size }
{
    if size == 0 {
        return Ok(0);
    }
    let end = vaddr + size;
    let need = table_split::needed_frames(pool, base, used, vaddr, end);
    if pool.len() / 512 - used < need {
        return Err(Refusal::NoFrames);
    }
    let after = table_split::split_ends(pool, base, used, vaddr, end);
    clear(pool, base, after, vaddr, end);
    Ok(need)
}
