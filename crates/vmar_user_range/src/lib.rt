// zircon-object/src/vm/vmar.rs: `check_user_range`, on a space that passes its check. The Rust looks up each page; here a mapping is looked up once and its pages are
// read in one go, so that the time does not grow with the range.
#![tactic(auto)]

ghost use Rattle.std.specs.Prelude.{◌≡◌, true, ◌+◌, ◌-◌, ◌*◌, ◌/◌, ◌^◌, ◌≤◌, ◌<◌, length};
ghost use Rattle.common.specs.Flags.{known_page};
ghost use Rattle.paging.specs.Choice.{Decided};
ghost use Rattle.scan.specs.Scan.{below};
ghost use Rattle.space.specs.Passes.{Passes, LiveIn};
ghost use Rattle.vmar_user_range.specs.UserRange.{is_held, holder_of, start_of, AllGrant, PageOf, pages_in, Tested, checked, user_range};

use common::defs::{MMUFlags, PAGE_SIZE, VirtAddr};
use refusal::Refusal;
use space::{LAST, Mapping, Space};

// Whether the mapping lives and holds the address.
#[tactic(auto, using(std::proofs::lemmas::Bool::Decides::nat_tests), unfolding(crate::specs::UserRange::is_held))]
fn is_held(m: &Mapping, vaddr: VirtAddr) -> bool
    ensures { result ≡ is_held m.now vaddr }
{
    m.live && space::contains(m.addr, m.size, vaddr)
}

// The slot of the mapping that holds the address.
fn holder_of(s: &Space, vaddr: VirtAddr) -> Option<usize>
    ensures { result ≡ below 64 (holder_of s.now vaddr) }
{
    s.mappings.iter().position(|m| is_held(m, vaddr))
}

// Whether each of the n bytes from `at` on has every flag of `access`. What is missing is gathered, so that no branch stands in the loop: `all` would be slower.
fn do_all_grant(flags: &[u8], at: usize, n: usize, access: u8) -> bool
    requires { at + n ≤ length flags.now }
    ensures { Decided (AllGrant flags.now at n access) result }
{
    let mut lacking = 0u8;
    for j in at..at + n {
        lacking |= (flags[j] & access) ^ access;
    }
    lacking == 0
}

// The address at which a page is looked up: its first that lies in the range.
#[tactic(auto, using(std::proofs::lemmas::Bool::Decides::nat_tests), unfolding(crate::specs::UserRange::start_of))]
fn start_of(addr: VirtAddr, page: u64) -> VirtAddr
    requires { page < 2 ^ 52 }
    ensures { result ≡ start_of addr page }
{
    addr.max(page * PAGE_SIZE)
}

// How many of the pages from this one to the last lie in the mapping that holds it.
#[tactic(auto, using(std::proofs::lemmas::Bool::Decides::nat_tests), unfolding(crate::specs::UserRange::pages_in))]
fn pages_in(m: &Mapping, page: u64, last: u64) -> u64
    requires { PageOf m.now page × (page ≤ last) × (last < 2 ^ 52) }
    ensures { result ≡ pages_in m.now page last }
{
    let end = (m.addr + m.size) / PAGE_SIZE;
    end.min(last + 1) - page
}

// The pages from this one to the last as far as they lie in the mapping in this slot, which holds the first: how many they are.
fn test_pages(
    flags: &[u8],
    m: &Mapping,
    slot: usize,
    page: u64,
    last: u64,
    access: MMUFlags,
) -> Result<u64, Refusal>
    requires { (length flags.now ≡ 32768) × (slot < 64) × PageOf m.now page × (page ≤ last) × (last < 2 ^ 52) × (access.0 < 256) }
    ensures { Tested flags.now (slot * 512 + (page - m.now.addr / 4096)) (pages_in m.now page last) access.0 result }
{
    let n = pages_in(m, page, last);
    let at = slot * 512 + (page - m.addr / PAGE_SIZE) as usize;
    if !MMUFlags(flags[at] as u64).contains(MMUFlags::USER) {
        return Err(Refusal::NotFound);
    }
    if !do_all_grant(flags, at, n as usize, access.0 as u8) {
        return Err(Refusal::AccessDenied);
    }
    Ok(n)
}

// The pages that [addr, end], closed, touches, in region r.
fn check_pages(
    s: &Space,
    flags: &[u8],
    r: usize,
    addr: VirtAddr,
    end: VirtAddr,
    access: MMUFlags,
) -> Result<(), Refusal>
    requires { LiveIn s.now r × Passes s.now flags.now × (addr ≤ end) × (known_page access.0 ≡ true) }
    ensures { result ≡ checked s.now flags.now r addr end access.0 }
{
    let g = s.regions[r];
    let last = end / PAGE_SIZE;
    let mut page = addr / PAGE_SIZE;
    // a step is the part of the range in one mapping: no range has these pages
    while page <= last {
        let vaddr = start_of(addr, page);
        let slot = holder_of(s, vaddr).ok_or(Refusal::NotFound)?;
        if !space::contains(g.addr, g.size, vaddr) {
            return Err(Refusal::NotFound);
        }
        let n = test_pages(flags, &s.mappings[slot], slot, page, last, access)?;
        page += n;
    }
    Ok(())
}

// Whether a user may access every page that the range touches.
#[tactic(auto, using(std::proofs::lemmas::Bool::Decides::nat_tests), unfolding(crate::specs::UserRange::user_range))]
pub fn check_user_range(
    s: &Space,
    flags: &[u8],
    id: u64,
    addr: VirtAddr,
    len: u64,
    access: MMUFlags,
) -> Result<(), Refusal>
    requires { Passes s.now flags.now }
    ensures { result ≡ user_range s.now flags.now id addr len access.0 }
{
    if s.nextid <= id {
        return Err(Refusal::BadHandle);
    }
    if len == 0 {
        return Ok(());
    }
    if !access.is_known() {
        return Err(Refusal::InvalidArgs);
    }
    if !space::sum_le(addr, len - 1, LAST) {
        return Err(Refusal::NotFound);
    }
    let r = vmar_offset::slot_of(s, id).ok_or(Refusal::BadState)?;
    check_pages(s, flags, r, addr, addr + (len - 1), access)
}
