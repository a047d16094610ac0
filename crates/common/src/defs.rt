// kernel-hal/src/common/defs.rs: page flags and page size; and from zircon-object/src/vm/vmar.rs the region flags.
ghost use Rattle.std.specs.Prelude.{◌≡◌};
ghost use Rattle.common.specs.Flags.{known_page, known_region, grants};

pub type PhysAddr = u64;

pub type VirtAddr = u64;

// The smallest page.
pub const PAGE_SIZE: u64 = 0x1000;

// Page flags. A set of them is the sum of its members.
#[derive(Clone, Copy, Debug, PartialEq, Eq)]
pub struct MMUFlags(pub u64);

impl MMUFlags {
    pub const READ: MMUFlags = MMUFlags(1 << 2);

    pub const WRITE: MMUFlags = MMUFlags(1 << 3);

    pub const EXECUTE: MMUFlags = MMUFlags(1 << 4);

    pub const USER: MMUFlags = MMUFlags(1 << 5);

    pub const HUGE_PAGE: MMUFlags = MMUFlags(1 << 6);

    // READ, WRITE and EXECUTE, which the Rust puts together where it uses them.
    pub const RXW: MMUFlags = MMUFlags(0x1c);

    // All five. The Rust's cache bits and DEVICE are not known here.
    pub const ALL: MMUFlags = MMUFlags(0x7c);

    // Whether no bit but the five is set.
    pub fn is_known(self) -> bool
        ensures { result ≡ known_page self.0 }
    {
        self.0 & MMUFlags::ALL.0 == self.0
    }

    // Whether every flag of the other is in this one.
    pub fn contains(self, other: MMUFlags) -> bool
        ensures { result ≡ grants self.0 other.0 }
    {
        self.0 & other.0 == other.0
    }
}

// Region flags, which say what a region allows of its children and mappings.
#[derive(Clone, Copy, Debug, PartialEq, Eq)]
pub struct VmarFlags(pub u64);

impl VmarFlags {
    pub const COMPACT: VmarFlags = VmarFlags(1 << 0);

    pub const SPECIFIC: VmarFlags = VmarFlags(1 << 1);

    pub const SPECIFIC_OVERWRITE: VmarFlags = VmarFlags(1 << 2);

    pub const CAN_MAP_SPECIFIC: VmarFlags = VmarFlags(1 << 3);

    pub const CAN_MAP_READ: VmarFlags = VmarFlags(1 << 4);

    pub const CAN_MAP_WRITE: VmarFlags = VmarFlags(1 << 5);

    pub const CAN_MAP_EXECUTE: VmarFlags = VmarFlags(1 << 6);

    pub const REQUIRE_NON_RESIZABLE: VmarFlags = VmarFlags(1 << 7);

    pub const ALLOW_FAULTS: VmarFlags = VmarFlags(1 << 8);
    // All nine.
    pub const ALL: VmarFlags = VmarFlags(0x1ff);

    // Whether no bit but the nine is set. A trait for both kinds of flags would take two ghost members, a law and two impls for this line.
    pub fn is_known(self) -> bool
        ensures { result ≡ known_region self.0 }
    {
        self.0 & VmarFlags::ALL.0 == self.0
    }
}
