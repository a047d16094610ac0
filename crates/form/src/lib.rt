// Whether a lent pool is one that calls work on.
//
// A frame's rank is one more than its level, and 0 while no entry is known to reach it. The frames are read by falling rank, so that a
// frame's rank is known before its words are read, and each frame has one turn. The ranks are no Options: an `Option<usize>` is twice as
// large, and they have 8 KiB of stack.
#![tactic(auto)]

ghost use Rattle.std.specs.Prelude.{◌≡◌, true, ◌+◌, ◌-◌, ◌*◌, ◌/◌, ◌%◌, ◌<◌, ◌≤◌, length};
ghost use Rattle.paging.specs.Choice.{Decided};
ghost use Rattle.form.specs.Form.{WellFormed, Sized, Good};
ghost use Rattle.form.specs.Sure.{Plain, AllPlain, Sure};
ghost use Rattle.form.specs.Sweep.{AllReached};

use common::defs::PAGE_SIZE;
use x86_64::vm::X86PTE;

const FRAME_WORDS: usize = 512;

const MOST_FRAMES: usize = 1024;

const PHYSICAL_END: u64 = 1 << 52;

const ROOT_RANK: usize = 4;

// Bits that leaves of one level have in common, and what they are.
#[derive(Clone, Copy)]
struct LeafBits {
    mask: u64,
    tag: u64,
}

// Bits 52 to 62, 8 to 11, 3 and 4, the size's, and the address bits below it. At the root's level none is a leaf, and none passes.
#[tactic(auto, using(crate::proofs::Leaves::sure_4k, crate::proofs::Leaves::sure_2m, crate::proofs::Leaves::sure_1g))]
fn leaf_bits(level: usize) -> LeafBits
    ensures { Sure level result.mask result.tag }
{
    match level {
        0 => LeafBits {
            mask: 0x7ff0_0000_0000_0f98,
            tag: 0x200,
        },
        1 => LeafBits {
            mask: 0x7ff0_0000_001f_ff98,
            tag: 0x280,
        },
        2 => LeafBits {
            mask: 0x7ff0_0000_3fff_ff98,
            tag: 0x280,
        },
        _ => LeafBits { mask: 0, tag: 1 },
    }
}

// Bits in which a word is neither 0 nor a leaf that is told at once; what has some may still be an entry. There is no branch, so that the
// compiler takes several words at a time and the processor has nothing to predict.
fn flaws(bits: LeafBits, w: u64) -> u64
    ensures { result ≡ 0 → Plain bits.mask bits.tag w }
{
    // 1 where bit 0 is set, or neither WRITE nor EXECUTE is given
    let agree = w & 1 | (w >> 63 & !(w >> 1));
    // all bits, or none where the word has to be 0
    let leaf = agree * u64::MAX;
    (w & (bits.mask | !leaf)) ^ (bits.tag & leaf)
}

// Whether each word of the table is 0 or told at once; false says nothing. None is left out, since `all` would branch at each.
fn all_plain(table: &[u64], bits: LeafBits) -> bool
    ensures { result ≡ true → AllPlain bits.mask bits.tag table.now (length table.now) }
{
    let mut found = 0;
    for w in table {
        found |= flaws(bits, *w);
    }
    found == 0
}

// A pool whose length, base and `used` are right.
#[derive(Clone, Copy)]
struct LentPool<'a> {
    words: &'a [u64],
    base: u64,
    used: usize,
    ghost sized: { Sized (length words.now) base used },
}

impl LentPool<'_> {
    ghost use Rattle.form.specs.Lent.{SweepOf, SweptOf, StepOf};

    // What a word that was not told at once does: false where it may not stand in a frame of this rank. A table entry gives the frame that
    // it reaches the next lower rank.
    fn sweep_entry(&self, at: &mut [usize; MOST_FRAMES], rank: usize, w: u64) -> bool
        requires { (0 < rank) × (0 < w) }
        ensures { StepOf self.now rank w at.old at.new result }
    {
        let entry = X86PTE(w);
        if !entry.is_entry(rank - 1) {
            return false;
        }
        if entry.is_leaf() {
            return true;
        }
        let paddr = entry.addr();
        if paddr <= self.base {
            return false;
        }
        let reached = ((paddr - self.base) / PAGE_SIZE) as usize;
        if self.used <= reached {
            return false;
        }
        if at[reached] != 0 {
            return false;
        }
        at[reached] = rank - 1;
        true
    }

    // What any word does. Most are 0 or told at once.
    fn sweep_word(&self, at: &mut [usize; MOST_FRAMES], rank: usize, bits: LeafBits, w: u64) -> bool
        requires rank_left { 0 < rank }
        requires sure { Sure (rank - 1) bits.mask bits.tag }
        ensures { StepOf self.now rank w at.old at.new result }
    {
        w == 0 || flaws(bits, w) == 0 || self.sweep_entry(at, rank, w)
    }

    // Reads a frame, if this is its rank's turn. Most frames of a full pool hold leaves alone and are told at once; the others are read
    // again, word by word.
    fn sweep_frame(&self, at: &mut [usize; MOST_FRAMES], rank: usize, frame: usize) -> bool
        requires in_use { (frame < self.now.used) × (0 < rank) }
        requires sweep { SweepOf self.now at.old rank (frame * 512) }
        ensures { SweptOf self.now at.new rank (frame * 512 + 512) result }
    {
        if at[frame] != rank {
            return true;
        }
        let bits = leaf_bits(rank - 1);
        let table = pool::table_of(self.words, frame);
        if all_plain(table, bits) {
            return true;
        }
        for w in table {
            if !self.sweep_word(at, rank, bits, *w) {
                return false;
            }
        }
        true
    }

    // Reads the frames of one rank.
    fn sweep_rank(&self, at: &mut [usize; MOST_FRAMES], rank: usize) -> bool
        requires rank_left { 0 < rank }
        requires sweep { SweepOf self.now at.old rank 0 }
        ensures { SweptOf self.now at.new rank (self.now.used * 512) result }
    {
        for frame in 0..self.used {
            if !self.sweep_frame(at, rank, frame) {
                return false;
            }
        }
        true
    }

    // Reads every frame that the root leads to, the root first.
    fn sweep_all(&self, at: &mut [usize; MOST_FRAMES]) -> bool
        requires { SweepOf self.now at.old 4 0 }
        ensures { SweptOf self.now at.new 0 0 result }
    {
        for rank in (1..=ROOT_RANK).rev() {
            if !self.sweep_rank(at, rank) {
                return false;
            }
        }
        true
    }
}

// Whether each taken frame has a rank.
fn all_reached(at: &[usize], used: usize) -> bool
    requires { used ≤ length at.now }
    ensures { Decided (AllReached at.now used) result }
{
    at[..used].iter().all(|rank| *rank != 0)
}

// Whether the pool's form is right.
pub fn is_formed(pool: &[u64], base: u64, used: usize) -> bool
    requires { Sized (length pool.now) base used }
    ensures { Decided (WellFormed pool.now (base / 4096) used) result }
{
    let mut at = [0usize; MOST_FRAMES];
    at[0] = ROOT_RANK;
    let lent = LentPool {
        words: pool,
        base,
        used,
    };
    lent.sweep_all(&mut at) && all_reached(&at, used)
}

// Whether length, base and `used` of a pool are right.
fn is_sized(len: usize, base: u64, used: usize) -> bool
    ensures { Decided (Sized len base used) result }
{
    let frames = len / FRAME_WORDS;
    len % FRAME_WORDS == 0
        && frames <= MOST_FRAMES
        && base % PAGE_SIZE == 0
        // first, so that the sum fits
        && base <= PHYSICAL_END
        && base + PAGE_SIZE * frames as u64 <= PHYSICAL_END
        && used != 0
        && used <= frames
}

// BAD_TABLE's test, of any pool.
pub fn is_good(pool: &[u64], base: u64, used: usize) -> bool
    ensures { Decided (Good pool.now base used) result }
{
    is_sized(pool.len(), base, used) && is_formed(pool, base, used)
}
