// Which regions go when a range is cut out of a region of a space that passes its check: the Rust finds them by walking down; here each looks at its parent, which stands
// before it in the list.
#![tactic(auto)]

ghost use Rattle.std.specs.Prelude.{◌≡◌, false, ◌≤◌, length, get_or};
ghost use Rattle.space.specs.Passes.{Passing};
ghost use Rattle.vmar_doom.specs.Doomed.{is_child_in, marked};

use common::defs::VirtAddr;
use space::{Region, Space};

// The end of every address: no region and no mapping reaches past it.
pub const END: u64 = 0xffff_ffff_ffff_f000;

// Whether the region is a child of region r and lies within the range.
#[tactic(auto, unfolding(crate::specs::Doomed::is_child_in))]
pub fn is_child_in(g: Region, r: usize, begin: VirtAddr, end: VirtAddr) -> bool
    requires { begin ≤ end }
    ensures { result ≡ is_child_in g r begin end }
{
    g.parent == r && space::within(g.addr, g.size, begin, end - begin)
}

// The mark of a region's parent; the root has none.
fn mark_of(marks: &[bool], parent: usize) -> bool
    ensures { result ≡ get_or marks.now parent false }
{
    marks.get(parent).copied().unwrap_or(false)
}

// A mark for each slot whose region goes.
pub fn doomed(s: &Space, r: usize, begin: VirtAddr, end: VirtAddr) -> [bool; 32]
    requires { Passing s.now × (begin ≤ end) }
    ensures { result ≡ marked s.now r begin end }
{
    let mut marks = [false; 32];
    for slot in &s.reglist[..s.regcount] {
        let g = s.regions[*slot];
        let goes = is_child_in(g, r, begin, end);
        marks[*slot] = goes || mark_of(&marks, g.parent);
    }
    marks
}
