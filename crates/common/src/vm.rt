// kernel-hal/src/common/vm.rs: page sizes.
ghost use Rattle.std.specs.Prelude.{◌≡◌, ◌-◌, ◌%◌};
ghost use Rattle.common.specs.Page.{size_of, aligned, is_huge};

use crate::defs::VirtAddr;

#[derive(Clone, Copy, Debug, PartialEq, Eq)]
pub enum PageSize {
    Size4K,
    Size2M,
    Size1G,
}

impl PageSize {
    // In bytes.
    pub fn size(self) -> u64
        ensures { result ≡ size_of self }
    {
        match self {
            PageSize::Size4K => 0x1000,
            PageSize::Size2M => 0x20_0000,
            PageSize::Size1G => 0x4000_0000,
        }
    }

    pub fn is_aligned(self, addr: VirtAddr) -> bool
        ensures { result ≡ aligned self addr }
    {
        self.page_offset(addr) == 0
    }

    pub fn align_down(self, addr: VirtAddr) -> VirtAddr
        ensures { result ≡ addr - addr % size_of self }
    {
        addr & !(self.size() - 1)
    }

    pub fn page_offset(self, addr: VirtAddr) -> u64
        ensures { result ≡ addr % size_of self }
    {
        addr & (self.size() - 1)
    }

    pub fn is_huge(self) -> bool
        ensures { result ≡ is_huge self }
    {
        match self {
            PageSize::Size4K => false,
            PageSize::Size2M => true,
            PageSize::Size1G => true,
        }
    }
}
