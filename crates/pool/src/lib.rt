// The lent pool of frames, and parts of it: what stands in for the raw pointers of `table_of` and `table_of_mut`.
#![tactic(auto)]

ghost use Rattle.std.specs.Prelude.{◌≡◌, ◌+◌, ◌*◌, ◌<◌, ◌≤◌, length, set, replicate};
ghost use Rattle.pool.specs.Pool.{frame_at, word, put_word, zeroed};

// The 512 words of frame `i`, as a part of the pool.
#[tactic(auto, using(crate::proofs::Frames::width))]
pub fn table_of(pool: &[u64], i: usize) -> &[u64]
    requires { i * 512 + 512 ≤ length pool.now }
    ensures { result.now ≡ frame_at pool.now i }
{
    &pool[i * 512..i * 512 + 512]
}

// The word at place `k` of frame `i`.
#[tactic(auto, using(crate::proofs::Frames::frame_length, crate::proofs::Frames::frame_at_lem))]
pub fn entry_at(pool: &[u64], i: usize, k: usize) -> u64
    requires { (i * 512 + 512 ≤ length pool.now) × (k < 512) }
    ensures { result ≡ word pool.now i k }
{
    table_of(pool, i)[k]
}

// Writes that word, through the frame's part of the pool.
#[tactic(auto, using(crate::proofs::Frames::put_at))]
pub fn set_entry(pool: &mut [u64], i: usize, k: usize, w: u64)
    requires { (i * 512 + 512 ≤ length pool.old) × (k < 512) }
    ensures { pool.new ≡ put_word pool.old i k w }
{
    let table = &mut pool[i * 512..i * 512 + 512];
    table[k] = w;
}

// Zeroes frame `i`.
pub fn zero_frame(pool: &mut [u64], i: usize)
    requires { i * 512 + 512 ≤ length pool.old }
    ensures { pool.new ≡ zeroed pool.old i }
{
    pool[i * 512..i * 512 + 512].fill(0);
}
