// Of BAD_SPACE: ids are distinct, and no two parts of a region overlap.
#![tactic(auto)]

ghost use Rattle.std.specs.Prelude.{◌↔◌, IsTrue};
ghost use Rattle.space.specs.Passes.{Apart, Blank};
ghost use Rattle.space_parts.specs.Parts.{Fitting};
ghost use Rattle.space_pairs.specs.Pairs.{IdsDiffer, IdsDistinct, PlacesApart, AllApart};

use space::{REGIONS, Region, Space};
use space_parts::{PARTS, Place};

// Whether two regions, if they live, have different ids.
fn do_ids_differ(g: Region, h: Region) -> bool
    ensures { IsTrue result ↔ IdsDiffer g h }
{
    !g.live || !h.live || g.id != h.id
}

pub fn are_ids_distinct(s: &Space) -> bool
    ensures { IsTrue result ↔ IdsDistinct s.now }
{
    for i in 0..REGIONS {
        for j in 0..i {
            if !do_ids_differ(s.regions[i], s.regions[j]) {
                return false;
            }
        }
    }
    true
}

// Whether p, whose place is before that of q, does not overlap it or belongs to another region. Most parts end before those that were made after them:
// that is tested first.
#[tactic(auto, using(std::proofs::lemmas::Bool::Decides::nat_tests), unfolding(space_parts::specs::Parts::meet))]
fn are_apart(p: Place, q: Place) -> bool
    ensures { IsTrue result ↔ PlacesApart p q }
{
    p.end <= q.begin || q.end <= p.begin || p.owner != q.owner
}

fn are_all_apart(places: &[Place; PARTS]) -> bool
    ensures { IsTrue result ↔ AllApart places.now }
{
    for i in 0..PARTS {
        for j in 0..i {
            if !are_apart(places[j], places[i]) {
                return false;
            }
        }
    }
    true
}

pub fn are_parts_apart(s: &Space) -> bool
    requires { Fitting s.now × Blank s.now }
    ensures { IsTrue result ↔ Apart s.now }
{
    are_all_apart(&space_parts::parts_of(s))
}
