// zircon-object/src/vm/vmar.rs: `unmap`, `destroy` and `clear`, on a space that passes its check and a good pool. What can refuse is asked before anything changes; then the
// table is cut in the Rust's order, and the page flags and the space follow.
//
// Space, page flags, words, base and frames in use are lent one by one: a struct of them would hold four `&mut`.
#![tactic(auto)]

ghost use Rattle.std.specs.Prelude.{◌≡◌, false, ◌+◌, ◌%◌, ◌≤◌, ◌<◌};
ghost use Rattle.form.specs.Form.{Good};
ghost use Rattle.scan.specs.Scan.{some};
ghost use Rattle.space.specs.Passes.{Passes, Passing, LiveIn};
ghost use Rattle.vmar_offset.specs.Offset.{free_mapping};
ghost use Rattle.vmar_doom.specs.Doomed.{marked};
ghost use Rattle.vmar_cuts.specs.Cuts.{unmap_cuts, destroy_cuts};
ghost use Rattle.vmar_prune.specs.Prune.{split_slot, cut_space, cut_flags};
ghost use Rattle.vmar_unmap.specs.Unmap.{state, done, cut_state, is_partly, partly_at, has_dead, lacks_slot, cut_range, in_region, unmapped, going_with, cleared, cleared_call};

use common::defs::VirtAddr;
use refusal::Refusal;
use space::{Region, Space};
use vmar_cuts::Span;
use vmar_doom::END;

// The Rust's `partial_overlap` of a child.
#[tactic(auto, using(std::proofs::lemmas::Bool::Decides::nat_tests), unfolding(crate::specs::Unmap::is_partly))]
fn is_partly(g: Region, r: usize, begin: VirtAddr, end: VirtAddr) -> bool
    requires { begin ≤ end }
    ensures { result ≡ is_partly g r begin end }
{
    vmar_offset::meets(g, r, begin, end - begin)
        && !space::within(g.addr, g.size, begin, end - begin)
}

fn has_partly(s: &Space, r: usize, begin: VirtAddr, end: VirtAddr) -> bool
    requires { begin ≤ end }
    ensures { result ≡ some (partly_at s.now r begin end) 0 32 }
{
    s.regions.iter().any(|g| is_partly(*g, r, begin, end))
}

// Whether a listed region is dead. The one place that gives 14.
fn has_dead(s: &Space) -> bool
    requires { Passing s.now }
    ensures { result ≡ has_dead s.now }
{
    for slot in &s.reglist[..s.regcount] {
        if !s.regions[*slot].live {
            return true;
        }
    }
    false
}

// Whether a mapping is split and no slot is free for its second part.
fn lacks_slot(s: &Space, r: usize, begin: VirtAddr, end: VirtAddr) -> bool
    requires { Passing s.now }
    ensures { result ≡ lacks_slot s.now r begin end }
{
    vmar_prune::split_slot(s, r, begin, end).is_some() && vmar_offset::free_mapping(s).is_none()
}

// The page flags and the space, where the table has been cut.
fn prune(
    s: &mut Space,
    pages: &mut [u8],
    marks: &[bool; 32],
    r: usize,
    begin: VirtAddr,
    end: VirtAddr,
)
    requires { Passes s.old pages.old × (split_slot s.old r begin end < 64 → free_mapping s.old < 64) }
    ensures { (s.new ≡ cut_space s.old marks.now r begin end) × (pages.new ≡ cut_flags s.old pages.old marks.now r begin end) }
{
    vmar_prune::cut_flags(s, pages, marks, r, begin, end);
    vmar_prune::cut_space(s, marks, r, begin, end);
}

// Cuts the range out of region r: table, page flags and space.
fn cut(
    s: &mut Space,
    pages: &mut [u8],
    pool: &mut [u64],
    base: u64,
    used: &mut usize,
    r: usize,
    span: Span,
)
    requires { Passes s.old pages.old × Good pool.old base used.old × (split_slot s.old r span.begin span.end < 64 → free_mapping s.old < 64) }
    ensures { state s.new pages.new pool.new used.new ≡ cut_state base (state s.old pages.old pool.old used.old) (marked s.old r span.begin span.end) (unmap_cuts s.old r span.begin span.end) r span.begin span.end }
{
    vmar_cuts::unmap_cuts(s, pool, base, used, r, span);
    let marks = vmar_doom::doomed(s, r, span.begin, span.end);
    prune(s, pages, &marks, r, span.begin, span.end);
}

// The Rust's `unmap_inner`, in region r; `is_short` tells whether slots are short.
#[tactic(auto, using(std::proofs::lemmas::Bool::Decides::nat_tests), unfolding(crate::specs::Unmap::cut_range))]
pub fn unmap_inner(
    s: &mut Space,
    pages: &mut [u8],
    pool: &mut [u64],
    base: u64,
    used: &mut usize,
    r: usize,
    span: Span,
    is_short: bool,
) -> Result<(), Refusal>
    requires { Passes s.old pages.old × Good pool.old base used.old × (is_short ≡ false → split_slot s.old r span.begin span.end < 64 → free_mapping s.old < 64) }
    ensures { done result s.new pages.new pool.new used.new ≡ cut_range base (state s.old pages.old pool.old used.old) r span.begin span.end is_short }
{
    if has_partly(s, r, span.begin, span.end) {
        return Err(Refusal::InvalidArgs);
    }
    if has_dead(s) {
        return Err(Refusal::ChildDead);
    }
    if is_short {
        return Err(Refusal::NoSlot);
    }
    let free = pool.len() / 512 - *used;
    if !vmar_cuts::has_frames_for_unmap(s, r, span, free) {
        return Err(Refusal::NoFrames);
    }
    cut(s, pages, pool, base, used, r, span);
    Ok(())
}

// `unmap_inner` in the region of this id, unless it is dead or the end overflows.
#[tactic(auto, using(std::proofs::lemmas::Bool::Decides::nat_tests), unfolding(crate::specs::Unmap::in_region))]
fn unmap_in(
    s: &mut Space,
    pages: &mut [u8],
    pool: &mut [u64],
    base: u64,
    used: &mut usize,
    id: u64,
    addr: VirtAddr,
    len: u64,
) -> Result<(), Refusal>
    requires { Passes s.old pages.old × Good pool.old base used.old × (addr % 4096 ≡ 0) × (len % 4096 ≡ 0) }
    ensures { done result s.new pages.new pool.new used.new ≡ in_region base (state s.old pages.old pool.old used.old) id addr len }
{
    let r = vmar_offset::slot_of(s, id).ok_or(Refusal::BadState)?;
    let end = addr.checked_add(len).ok_or(Refusal::InvalidArgs)?;
    let is_short = lacks_slot(s, r, addr, end);
    unmap_inner(
        s,
        pages,
        pool,
        base,
        used,
        r,
        Span { begin: addr, end },
        is_short,
    )
}

// Unmaps what lies in the range and destroys the children within it.
#[tactic(auto, using(std::proofs::lemmas::Bool::Decides::nat_tests), unfolding(crate::specs::Unmap::unmapped))]
pub fn unmap(
    s: &mut Space,
    pages: &mut [u8],
    pool: &mut [u64],
    base: u64,
    used: &mut usize,
    id: u64,
    addr: VirtAddr,
    len: u64,
) -> Result<(), Refusal>
    requires { Passes s.old pages.old × Good pool.old base used.old }
    ensures { done result s.new pages.new pool.new used.new ≡ unmapped base (state s.old pages.old pool.old used.old) id addr len }
{
    if s.nextid <= id {
        return Err(Refusal::BadHandle);
    }
    if !vm::page_aligned(addr) || !vm::page_aligned(len) || len == 0 {
        return Err(Refusal::InvalidArgs);
    }
    unmap_in(s, pages, pool, base, used, id, addr, len)
}

// The marks of the regions that go with all that lies in region r: those below it, and r itself with them or not.
fn going_with(s: &Space, r: usize, is_itself: bool) -> [bool; 32]
    requires { LiveIn s.now r }
    ensures { result ≡ going_with s.now r is_itself }
{
    let mut marks = vmar_doom::doomed(s, r, 0, END);
    if is_itself {
        marks[r] = true;
    }
    marks
}

// Cuts all out of region r, and the region too if it goes.
fn cut_all(
    s: &mut Space,
    pages: &mut [u8],
    pool: &mut [u64],
    base: u64,
    used: &mut usize,
    r: usize,
    is_itself: bool,
)
    requires { LiveIn s.old r × Passes s.old pages.old × Good pool.old base used.old }
    ensures { state s.new pages.new pool.new used.new ≡ cut_state base (state s.old pages.old pool.old used.old) (going_with s.old r is_itself) (destroy_cuts s.old r) r 0 0xfffffffffffff000 }
{
    vmar_cuts::destroy_cuts(s, pool, base, used, r);
    let marks = going_with(s, r, is_itself);
    prune(s, pages, &marks, r, 0, END);
}

// `clear` in the live region r, and `destroy` if it goes too.
#[tactic(auto, using(std::proofs::lemmas::Bool::Decides::nat_tests), unfolding(crate::specs::Unmap::cleared))]
fn clear_in(
    s: &mut Space,
    pages: &mut [u8],
    pool: &mut [u64],
    base: u64,
    used: &mut usize,
    r: usize,
    is_itself: bool,
) -> Result<(), Refusal>
    requires { LiveIn s.old r × Passes s.old pages.old × Good pool.old base used.old }
    ensures { done result s.new pages.new pool.new used.new ≡ cleared base (state s.old pages.old pool.old used.old) r is_itself }
{
    if has_dead(s) {
        return Err(Refusal::ChildDead);
    }
    let free = pool.len() / 512 - *used;
    if !vmar_cuts::has_frames_for_destroy(s, r, free) {
        return Err(Refusal::NoFrames);
    }
    cut_all(s, pages, pool, base, used, r, is_itself);
    Ok(())
}

// `clear`, and `destroy` if the region goes too.
#[tactic(auto, using(std::proofs::lemmas::Bool::Decides::nat_tests), unfolding(crate::specs::Unmap::cleared_call))]
pub fn clear(
    s: &mut Space,
    pages: &mut [u8],
    pool: &mut [u64],
    base: u64,
    used: &mut usize,
    id: u64,
    is_itself: bool,
) -> Result<(), Refusal>
    requires { Passes s.old pages.old × Good pool.old base used.old }
    ensures { done result s.new pages.new pool.new used.new ≡ cleared_call base (state s.old pages.old pool.old used.old) id is_itself }
{
    if s.nextid <= id {
        return Err(Refusal::BadHandle);
    }
    let r = vmar_offset::slot_of(s, id).ok_or(Refusal::BadState)?;
    clear_in(s, pages, pool, base, used, r, is_itself)
}
