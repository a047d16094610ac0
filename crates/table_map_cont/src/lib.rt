// kernel-hal/src/common/vm.rs: `map_cont`, on a well-formed table and a range that was tested. The pages are counted on the table as it stands, and
// written only if none fails: a refused call leaves every word as it was, and nothing has to be taken back.
#![tactic(auto)]

ghost use Rattle.std.specs.Prelude.{◌≡◌, ◌+◌, ◌-◌, ◌/◌, ◌≤◌, min, length};
ghost use Rattle.form.specs.Form.{Good};
ghost use Rattle.table_map_cont.specs.MapCont.{Range, top_level, fits, page_level, pages, map_cont};
ghost use Rattle.table_map_cont.specs.Count.{begins, count_page, counted};

use common::defs::{MMUFlags, PhysAddr, VirtAddr};
use refusal::Refusal;
use walk::Walk;

// The level of the largest page that is made: 1 GiB.
const LARGEST: usize = 2;

// The level of the largest page that these flags allow.
fn top_level(flags: MMUFlags) -> usize
    ensures { result ≡ top_level flags.0 }
{
    if flags.contains(MMUFlags::HUGE_PAGE) {
        LARGEST
    } else {
        0
    }
}

// Whether a page of the level fits what remains and both addresses.
fn is_fit(vaddr: VirtAddr, paddr: PhysAddr, remains: u64, level: usize) -> bool
    requires { level ≤ 2 }
    ensures { result ≡ fits vaddr paddr remains level }
{
    let page_size = walk::size_at(level);
    page_size.size() <= remains && page_size.is_aligned(vaddr) && page_size.is_aligned(paddr)
}

// The level of the next page.
fn page_level(top: usize, vaddr: VirtAddr, paddr: PhysAddr, remains: u64) -> usize
    requires { top ≤ 2 }
    ensures { result ≡ page_level top vaddr paddr remains }
{
    for level in (1..=top).rev() {
        if is_fit(vaddr, paddr, remains, level) {
            return level;
        }
    }
    0
}

// The highest level at which the address begins an entry.
fn begins_at(vaddr: VirtAddr) -> usize
    ensures { result ≡ begins vaddr }
{
    if vaddr % 0x80_0000_0000 == 0 {
        return 3;
    }
    if vaddr % 0x4000_0000 == 0 {
        return 2;
    }
    if vaddr % 0x20_0000 == 0 {
        return 1;
    }
    0
}

// The tables that a page needs under an unused entry, where those from `made` up are there.
fn tables_below(level: usize, made: usize, target: usize) -> usize
    requires { target ≤ min level made }
    ensures { result ≡ min level made - target }
{
    if level < made {
        return level - target;
    }
    made - target
}

// What a page would answer with `taken` frames in use, of which the walk sees `used`.
fn count_page(
    pool: &[u64],
    base: u64,
    used: usize,
    taken: usize,
    made: usize,
    vaddr: VirtAddr,
    target: usize,
) -> Result<usize, Refusal>
    requires good { Good pool.now base used }
    requires counted { (taken ≤ length pool.now / 512) × (target ≤ made) }
    ensures { result ≡ count_page pool.now (base / 4096) taken made vaddr target }
{
    let Walk::Open(spot) = walk::get_entry(pool, base, used, vaddr) else {
        return Err(Refusal::AlreadyMapped);
    };
    if spot.level < target {
        return Err(Refusal::AlreadyMapped);
    }
    let need = tables_below(spot.level, made, target);
    if pool.len() / 512 - taken < need {
        return Err(Refusal::NoFrames);
    }
    Ok(taken + need)
}

// What the pages answer one after the other, without a write: the way of `map_pages`, which would need a closure for what it does with each page.
fn count(
    pool: &[u64],
    base: u64,
    used: usize,
    from: VirtAddr,
    size: u64,
    to: PhysAddr,
    top: usize,
) -> Result<usize, Refusal>
    requires good { Good pool.now base used }
    requires range { Range from size to × (top ≤ 2) }
    ensures { result ≡ counted (size / 4096) pool.now (base / 4096) used 3 from to size top }
{
    let mut taken = used;
    let mut made: usize = 3;
    let mut vaddr = from;
    let mut paddr = to;
    let mut remains = size;
    // a page is as long as fits: no range has these addresses
    while 0 < remains {
        let level = page_level(top, vaddr, paddr, remains);
        taken = count_page(pool, base, used, taken, made, vaddr, level)?;
        let step = walk::size_at(level).size();
        vaddr += step;
        paddr += step;
        remains -= step;
        made = begins_at(vaddr);
    }
    Ok(taken)
}

// The pages one after the other, up to the first that fails.
fn map_pages(
    pool: &mut [u64],
    base: u64,
    used: usize,
    from: VirtAddr,
    size: u64,
    to: PhysAddr,
    flags: MMUFlags,
    top: usize,
) -> Result<usize, Refusal>
    requires good { Good pool.old base used }
    requires range { Range from size to × (top ≤ 2) }
    ensures { record { result = result; pool = pool.new } ≡ pages (size / 4096) pool.old (base / 4096) used from to size top flags.0 }
{
    let mut taken = used;
    let mut vaddr = from;
    let mut paddr = to;
    let mut remains = size;
    // a page is as long as fits: no range has these addresses
    while 0 < remains {
        let level = page_level(top, vaddr, paddr, remains);
        let page_size = walk::size_at(level);
        taken = table_map::map(pool, base, taken, vaddr, paddr, page_size, flags)?;
        let step = page_size.size();
        vaddr += step;
        paddr += step;
        remains -= step;
    }
    Ok(taken)
}

// Maps `size` bytes from `vaddr` on to those from `paddr` on.
pub fn map_cont(
    pool: &mut [u64],
    base: u64,
    used: usize,
    vaddr: VirtAddr,
    size: u64,
    paddr: PhysAddr,
    flags: MMUFlags,
) -> Result<usize, Refusal>
    requires good { Good pool.old base used }
    requires range { Range vaddr size paddr }
    ensures { record { result = result; pool = pool.new } ≡ map_cont pool.old (base / 4096) used vaddr size paddr flags.0 }
{
    let top = top_level(flags);
    count(pool, base, used, vaddr, size, paddr, top)?;
    map_pages(pool, base, used, vaddr, size, paddr, flags, top)
}
