// BAD_TABLE's test for C to call, so that tests/bench can time it.
#![tactic(auto)]

ghost use Rattle.paging.specs.Choice.{Answered};
ghost use Rattle.form.specs.Form.{Good};

// 1 where calls work on the pool, else 0.
#[unsafe(no_mangle)]
pub extern "C" fn bench_is_good(pool: &[u64], base: u64, used: usize) -> u64
    ensures { Answered (Good pool.now base used) 0 1 result }
{
    if form::is_good(pool, base, used) {
        return 1;
    }
    0
}
