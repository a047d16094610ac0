// One cut of the table that region calls do, on a well-formed table: `unmap_cont`, its frames added to those in use. A region call counts its frames before its first
// cut, so that none of its cuts is refused; specs/Laws says so.
#![tactic(auto)]

ghost use Rattle.std.specs.Prelude.{◌≡◌, ◌/◌};
ghost use Rattle.form.specs.Form.{Good};
ghost use Rattle.table_cuts.specs.Cuts.{Fits, cut_one};

use common::defs::VirtAddr;

// Removes whatever is mapped in the `len` bytes from `addr` on; the answer is the number of frames in use afterwards.
pub fn cut_one(pool: &mut [u64], base: u64, used: usize, addr: VirtAddr, len: u64) -> usize
    requires good { Good pool.old base used }
    requires fits { Fits (record { addr = addr; len = len }) }
    ensures value { record { pool = pool.new; used = result } ≡ cut_one (base / 4096) (record { addr = addr; len = len }) (record { pool = pool.old; used = used }) }
    ensures stays_good { Good pool.new base result }
{
    match table_unmap_cont::unmap_cont(pool, base, used, addr, len) {
        Ok(taken) => used + taken,
        Err(_) => used,
    }
}
