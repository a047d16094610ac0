// Where everything in a space lies, in numbers: a place for each region slot, then one for each mapping slot.
#![tactic(auto)]

ghost use Rattle.std.specs.Prelude.{◌≡◌, ◌+◌, ◌^◌, ◌<◌};
ghost use Rattle.space_parts.specs.Parts.{Fitting, PartsOf, place_of};

use common::defs::VirtAddr;
use space::{MAPPINGS, Part, REGIONS, Space};

// Region slots and mapping slots.
pub const PARTS: usize = 96;

// The region that a part belongs to, and from where to where it lies. A free slot is blank and lies at [0, 0), which overlaps nothing.
#[derive(Clone, Copy)]
pub struct Place {
    pub owner: usize,
    pub begin: VirtAddr,
    pub end: VirtAddr,
}

impl Place {
    const BLANK: Place = Place {
        owner: 0,
        begin: 0,
        end: 0,
    };

    fn of<P: Part>(p: P) -> Place
        requires { P.addr p + P.size p < 2 ^ 64 }
        ensures { result ≡ place_of (P.owner p) (P.addr p) (P.size p) }
    {
        Place {
            owner: p.owner(),
            begin: p.addr(),
            end: p.addr() + p.size(),
        }
    }
}

pub fn parts_of(s: &Space) -> [Place; PARTS]
    requires { Fitting s.now }
    ensures { PartsOf s.now result }
{
    let mut places = [Place::BLANK; PARTS];
    for i in 0..REGIONS {
        places[i] = Place::of(s.regions[i]);
    }
    for j in 0..MAPPINGS {
        places[REGIONS + j] = Place::of(s.mappings[j]);
    }
    places
}
