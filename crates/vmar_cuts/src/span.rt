// The ranges that region calls cut.
ghost use Rattle.vmar_cuts.specs.Cuts.{PageRange};

use common::defs::VirtAddr;
use vmar_doom::END;

// A range of whole pages.
#[derive(Clone, Copy)]
pub struct Span {
    pub begin: VirtAddr,
    pub end: VirtAddr,
    pub ghost pages: { PageRange begin end },
}

impl Span {
    // Every address.
    pub const ALL: Span = Span { begin: 0, end: END };
}
