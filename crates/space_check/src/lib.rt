// Whether a space is one that calls work on (BAD_SPACE): lists, slots and tree (space_slots), ids and overlaps (space_pairs), page flags (space_pages).
#![tactic(auto)]

ghost use Rattle.std.specs.Prelude.{◌↔◌, ◌≡◌, IsTrue, length};
ghost use Rattle.paging.specs.Choice.{Decided};
ghost use Rattle.space.specs.Passes.{Passes};
ghost use Rattle.space_check.specs.Clauses.{GoodRegions, GoodMappings};

use space::{FLAGS, Space};

// Whether the regions pass: lists, slots, tree, ids.
fn are_regions_good(s: &Space) -> bool
    ensures good { IsTrue result ↔ GoodRegions s.now }
    ensures long { length s.now.reglist ≡ 32 }
{
    s.nextid <= 0xffff_ffff
        && space_slots::is_list(&s.reglist, s.regcount)
        && space_slots::are_region_slots(s)
        && space_slots::is_tree(s)
        && space_pairs::are_ids_distinct(s)
}

// Whether the mappings pass: list, slots, page flags.
fn are_mappings_good(s: &Space, flags: &[u8]) -> bool
    ensures good { IsTrue result ↔ GoodMappings s.now flags.now }
    ensures long { length s.now.maplist ≡ 64 }
{
    flags.len() == FLAGS
        && space_slots::is_list(&s.maplist, s.mapcount)
        && space_slots::are_mapping_slots(s)
        && space_pages::are_all_pages(s, flags)
}

// Whether the space passes its check, with the page flags lent.
pub fn is_good(s: &Space, flags: &[u8]) -> bool
    ensures { Decided (Passes s.now flags.now) result }
{
    are_regions_good(s) && are_mappings_good(s, flags) && space_pairs::are_parts_apart(s)
}
