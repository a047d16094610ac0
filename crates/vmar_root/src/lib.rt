// zircon-object/src/vm/vmar.rs: `new_root` and `new_kernel`. The caller zeroes the page flags.
#![tactic(auto)]

ghost use Rattle.std.specs.Prelude.{◌≡◌};
ghost use Rattle.vmar_root.specs.Root.{new_space};

use common::defs::VirtAddr;
use space::{
    KERNEL_ASPACE_BASE, KERNEL_ASPACE_SIZE, MAPPINGS, Mapping, NO_REGION, REGIONS, Region, Space,
    USER_ASPACE_BASE, USER_ASPACE_SIZE,
};

// CAN_MAP_READ, CAN_MAP_WRITE, CAN_MAP_EXECUTE and CAN_MAP_SPECIFIC.
const ROOT_FLAGS: u64 = 0x78;

// A space with a root of this range and nothing in it.
fn new_space(addr: VirtAddr, size: u64) -> Space
    ensures { result ≡ new_space addr size }
{
    let mut regions = [Region::BLANK; REGIONS];
    regions[0] = Region {
        live: true,
        id: 0,
        addr,
        size,
        flags: ROOT_FLAGS,
        parent: NO_REGION,
    };
    Space {
        regions,
        mappings: [Mapping::BLANK; MAPPINGS],
        reglist: [0; REGIONS],
        regcount: 1,
        maplist: [0; MAPPINGS],
        mapcount: 0,
        nextid: 1,
    }
}

// A space with a user root. Both names are the Rust's.
pub fn new_root() -> Space
    ensures { result ≡ new_space 0x200000 0x7fffffdff000 }
{
    new_space(USER_ASPACE_BASE, USER_ASPACE_SIZE)
}

// A space with a kernel root.
pub fn new_kernel() -> Space
    ensures { result ≡ new_space 0xffffff0200000000 0x8000000000 }
{
    new_space(KERNEL_ASPACE_BASE, KERNEL_ASPACE_SIZE)
}
