// Of BAD_SPACE: the page flags of each mapping slot.
#![tactic(auto)]

ghost use Rattle.std.specs.Prelude.{◌↔◌, ◌≡◌, ℕ, ◌/◌, ◌<◌, ◌≤◌, length, IsTrue};
ghost use Rattle.space.specs.Space.{mapping_at};
ghost use Rattle.space.specs.Passes.{Pages};
ghost use Rattle.space_pages.specs.Pages.{AllAlike, AllZero, AllPages};

use space::{MAPPINGS, Space};

const PAGES: usize = 512;

// Whether all are known page flags with these others beside READ, WRITE and EXECUTE. What is wrong is gathered, so that no branch stands in the loop
// and the compiler takes several bytes at a time.
fn are_alike(pages: &[u8], others: u8) -> bool
    ensures { IsTrue result ↔ AllAlike pages.now others }
{
    let mut wrong = 0;
    for page in pages {
        wrong |= ((*page & 0x7c) ^ *page) | ((*page & 0x60) ^ others);
    }
    wrong == 0
}

// Gathered as in `are_alike`.
fn are_zero(bytes: &[u8]) -> bool
    ensures { IsTrue result ↔ AllZero bytes.now }
{
    let mut wrong = 0;
    for byte in bytes {
        wrong |= *byte;
    }
    wrong == 0
}

// The 512 bytes of mapping slot i, of so many pages.
fn are_pages(flags: &[u8], i: usize, pages: usize) -> bool
    requires { (length flags.now ≡ 32768) × (i < 64) × (pages ≤ 512) }
    ensures { IsTrue result ↔ Pages flags.now i pages }
{
    let at = i * PAGES;
    are_alike(&flags[at..at + pages], flags[at] & 0x60) && are_zero(&flags[at + pages..at + PAGES])
}

pub fn are_all_pages(s: &Space, flags: &[u8]) -> bool
    requires { (length flags.now ≡ 32768) × ((i : ℕ) → i < 64 → (mapping_at s.now i).size / 4096 ≤ 512) }
    ensures { IsTrue result ↔ AllPages s.now flags.now }
{
    for i in 0..MAPPINGS {
        if !are_pages(flags, i, (s.mappings[i].size / 4096) as usize) {
            return false;
        }
    }
    true
}
