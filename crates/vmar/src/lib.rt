// zircon-object/src/vm/vmar.rs: the calls on a space, on any space, any lent flags, any pool and any argument. Each tests what it takes, in document 01's order, and then
// calls its core; a refused call changes nothing. The Rust's `self` is a region; here it is the space, and the region goes by its id.
#![tactic(auto)]

ghost use Rattle.std.specs.Prelude.{◌≡◌, true, false};
ghost use Rattle.form.specs.Form.{Good};
ghost use Rattle.space.specs.Passes.{Passes, Passing};
ghost use Rattle.vmar_overwrite.specs.Overwrite as over;
ghost use Rattle.vmar_root.specs.Root.{new_space};
ghost use Rattle.vmar_unmap.specs.Unmap.{state};
ghost use Rattle.vmar.specs.Calls.{Checked, AllocateFits, MapFits, flags_call, FlagsFit, UserRangeFits, vaddr_call, VaddrFits, map_ext, MapExtFits, UnmapFits, ClearFits, ProtectFits};

use common::defs::{MMUFlags, VirtAddr, VmarFlags};
use refusal::Refusal;
use space::Space;
use vmar_map::{MapArgs, Vmo};

// A space with the calls on it.
#[derive(Clone, Copy)]
pub struct AddressSpace {
    pub space: Space,
}

// The answer of a call beside the new space, which it took: document 01's form for calls on a space.
#[derive(Clone, Copy)]
pub struct Answer<T> {
    pub result: Result<T, Refusal>,
    pub space: AddressSpace,
}

// With the frames in use.
#[derive(Clone, Copy)]
pub struct Changed<T> {
    pub result: Result<T, Refusal>,
    pub space: AddressSpace,
    pub used: usize,
}

// What is tested first of a call that takes the table: 12, then 13. One that does not take it tests 12 alone.
fn check(s: &Space, flags: &[u8], pool: &[u64], base: u64, used: usize) -> Result<(), Refusal>
    ensures { Checked (Passes s.now flags.now) (Good pool.now base used) result }
{
    if !space_check::is_good(s, flags) {
        return Err(Refusal::BadSpace);
    }
    if !form::is_good(pool, base, used) {
        return Err(Refusal::BadTable);
    }
    Ok(())
}

// 11 and 5 stand in each call, here and below, with what that call tests between them, in document 01's order.
#[tactic(auto, using(std::proofs::lemmas::Bool::Decides::nat_tests), unfolding(crate::specs::Calls::flags_call))]
fn flags_in(s: &Space, flags: &[u8], id: u64, vaddr: VirtAddr) -> Result<MMUFlags, Refusal>
    requires { Passes s.now flags.now }
    ensures { result ≡ flags_call s.now flags.now id vaddr }
{
    if s.nextid <= id {
        return Err(Refusal::BadHandle);
    }
    let r = vmar_offset::slot_of(s, id).ok_or(Refusal::BadState)?;
    vmar_lookup::get_mapping_flags(s, flags, r, vaddr)
}

#[tactic(auto, using(std::proofs::lemmas::Bool::Decides::nat_tests), unfolding(crate::specs::Calls::vaddr_call))]
fn vaddr_flags_in(
    s: &Space,
    pool: &[u64],
    base: u64,
    used: usize,
    id: u64,
    vaddr: VirtAddr,
) -> Result<MMUFlags, Refusal>
    requires { Passing s.now × Good pool.now base used }
    ensures { result ≡ vaddr_call s.now pool.now base id vaddr }
{
    if s.nextid <= id {
        return Err(Refusal::BadHandle);
    }
    let r = vmar_offset::slot_of(s, id).ok_or(Refusal::BadState)?;
    vmar_lookup::get_vaddr_flags(s, pool, base, used, r, vaddr)
}

// `map_ext` on a space and a pool that pass their checks: what stands there is replaced or refuses the call.
fn map_ext_in(
    s: &mut Space,
    pages: &mut [u8],
    pool: &mut [u64],
    base: u64,
    used: &mut usize,
    id: u64,
    offset: Option<u64>,
    m: MapArgs,
    overwrite: bool,
    allow_faults: bool,
) -> Result<VirtAddr, Refusal>
    requires { Passes s.old pages.old × Good pool.old base used.old }
    ensures { over.done result s.new pages.new pool.new used.new ≡ map_ext base (state s.old pages.old pool.old used.old) id offset m.vmo.id m.vmo.len m.vmo_offset m.len m.permissions.0 m.flags.0 overwrite allow_faults }
{
    if overwrite {
        return vmar_overwrite::map_overwrite(
            s,
            pages,
            pool,
            base,
            used,
            id,
            offset,
            m,
            allow_faults,
        );
    }
    vmar_map::map(s, pages, id, offset, m, allow_faults)
}

impl AddressSpace {
    // A user root. The caller zeroes the page flags.
    pub fn new_root() -> AddressSpace
        ensures { result.space ≡ new_space 0x200000 0x7fffffdff000 }
    {
        AddressSpace {
            space: vmar_root::new_root(),
        }
    }

    // A kernel root. The caller zeroes the page flags.
    pub fn new_kernel() -> AddressSpace
        ensures { result.space ≡ new_space 0xffffff0200000000 0x8000000000 }
    {
        AddressSpace {
            space: vmar_root::new_kernel(),
        }
    }

    // A child of the region, at the offset or where there is room.
    pub fn allocate(
        mut self,
        flags: &[u8],
        region: u64,
        offset: Option<u64>,
        len: u64,
        region_flags: VmarFlags,
        align: u64,
    ) -> Answer<u64>
        ensures { AllocateFits self.space flags.now region offset len region_flags.0 align (record { result = result.result; space = result.space.space }) }
    {
        if !space_check::is_good(&self.space, flags) {
            return Answer {
                result: Err(Refusal::BadSpace),
                space: self,
            };
        }
        let result = vmar_allocate::allocate(
            &mut self.space,
            region,
            offset,
            len,
            region_flags,
            align,
        );
        Answer {
            result,
            space: self,
        }
    }

    // The half of `map_ext` that never overwrites: a mapping of the VMO in the region, at the offset or where there is room. The table keeps its entries.
    pub fn map(
        mut self,
        pages: &mut [u8],
        pool: &[u64],
        base: u64,
        used: usize,
        region: u64,
        offset: Option<u64>,
        vmo: Vmo,
        vmo_offset: u64,
        len: u64,
        permissions: MMUFlags,
        flags: MMUFlags,
        allow_faults: bool,
    ) -> Answer<VirtAddr>
        ensures { MapFits self.space pages.old pool.now base used region offset vmo.id vmo.len vmo_offset len permissions.0 flags.0 allow_faults (record { result = result.result; space = result.space.space; flags = pages.new }) }
    {
        if let Err(why) = check(&self.space, pages, pool, base, used) {
            return Answer {
                result: Err(why),
                space: self,
            };
        }
        let m = MapArgs {
            vmo,
            vmo_offset,
            len,
            permissions,
            flags,
        };
        let result = vmar_map::map(&mut self.space, pages, region, offset, m, allow_faults);
        Answer {
            result,
            space: self,
        }
    }

    // A mapping of the VMO in the region, at the offset or where there is room; what stands there is replaced if so asked. No page is mapped in the table.
    // The parameters are the Rust's.
    pub fn map_ext(
        mut self,
        pages: &mut [u8],
        pool: &mut [u64],
        base: u64,
        mut used: usize,
        region: u64,
        offset: Option<u64>,
        vmo: Vmo,
        vmo_offset: u64,
        len: u64,
        permissions: MMUFlags,
        flags: MMUFlags,
        overwrite: bool,
        allow_faults: bool,
    ) -> Changed<VirtAddr>
        ensures { MapExtFits self.space pages.old pool.old base used region offset vmo.id vmo.len vmo_offset len permissions.0 flags.0 overwrite allow_faults (record { result = result.result; state = record { space = result.space.space; flags = pages.new; pool = pool.new; used = result.used } }) }
    {
        if let Err(why) = check(&self.space, pages, pool, base, used) {
            return Changed {
                result: Err(why),
                space: self,
                used,
            };
        }
        let m = MapArgs {
            vmo,
            vmo_offset,
            len,
            permissions,
            flags,
        };
        let result = map_ext_in(
            &mut self.space,
            pages,
            pool,
            base,
            &mut used,
            region,
            offset,
            m,
            overwrite,
            allow_faults,
        );
        Changed {
            result,
            space: self,
            used,
        }
    }

    // The flags that the mapping over the address gives its page, whether or not the table holds it.
    pub fn get_mapping_flags(self, flags: &[u8], region: u64, vaddr: VirtAddr) -> Answer<MMUFlags>
        ensures { FlagsFit self.space flags.now region vaddr (record { result = result.result; space = result.space.space }) }
    {
        if !space_check::is_good(&self.space, flags) {
            return Answer {
                result: Err(Refusal::BadSpace),
                space: self,
            };
        }
        let result = flags_in(&self.space, flags, region, vaddr);
        Answer {
            result,
            space: self,
        }
    }

    // The flags that the table holds at an address of a mapping.
    pub fn get_vaddr_flags(
        self,
        flags: &[u8],
        pool: &[u64],
        base: u64,
        used: usize,
        region: u64,
        vaddr: VirtAddr,
    ) -> Answer<MMUFlags>
        ensures { VaddrFits self.space flags.now pool.now base used region vaddr (record { result = result.result; space = result.space.space }) }
    {
        if let Err(why) = check(&self.space, flags, pool, base, used) {
            return Answer {
                result: Err(why),
                space: self,
            };
        }
        let result = vaddr_flags_in(&self.space, pool, base, used, region, vaddr);
        Answer {
            result,
            space: self,
        }
    }

    // Whether a user may access every page that the range touches.
    pub fn check_user_range(
        self,
        flags: &[u8],
        region: u64,
        addr: VirtAddr,
        len: u64,
        access: MMUFlags,
    ) -> Answer<()>
        ensures { UserRangeFits self.space flags.now region addr len access.0 (record { result = result.result; space = result.space.space }) }
    {
        if !space_check::is_good(&self.space, flags) {
            return Answer {
                result: Err(Refusal::BadSpace),
                space: self,
            };
        }
        let result = vmar_user_range::check_user_range(
            &self.space,
            flags,
            region,
            addr,
            len,
            access,
        );
        Answer {
            result,
            space: self,
        }
    }

    // Unmaps what lies in the range of the region, and destroys its children within it.
    pub fn unmap(
        mut self,
        pages: &mut [u8],
        pool: &mut [u64],
        base: u64,
        mut used: usize,
        region: u64,
        addr: VirtAddr,
        len: u64,
    ) -> Changed<()>
        ensures { UnmapFits self.space pages.old pool.old base used region addr len (record { result = result.result; state = record { space = result.space.space; flags = pages.new; pool = pool.new; used = result.used } }) }
    {
        if let Err(why) = check(&self.space, pages, pool, base, used) {
            return Changed {
                result: Err(why),
                space: self,
                used,
            };
        }
        let result = vmar_unmap::unmap(
            &mut self.space,
            pages,
            pool,
            base,
            &mut used,
            region,
            addr,
            len,
        );
        Changed {
            result,
            space: self,
            used,
        }
    }

    // Unmaps all of the region and destroys all below it, and the region too if it goes itself.
    fn clear_with(
        mut self,
        pages: &mut [u8],
        pool: &mut [u64],
        base: u64,
        mut used: usize,
        region: u64,
        is_itself: bool,
    ) -> Changed<()>
        ensures { ClearFits self.space pages.old pool.old base used region is_itself (record { result = result.result; state = record { space = result.space.space; flags = pages.new; pool = pool.new; used = result.used } }) }
    {
        if let Err(why) = check(&self.space, pages, pool, base, used) {
            return Changed {
                result: Err(why),
                space: self,
                used,
            };
        }
        let result = vmar_unmap::clear(
            &mut self.space,
            pages,
            pool,
            base,
            &mut used,
            region,
            is_itself,
        );
        Changed {
            result,
            space: self,
            used,
        }
    }

    // Unmaps all of the region and destroys it and all below it.
    pub fn destroy(
        self,
        pages: &mut [u8],
        pool: &mut [u64],
        base: u64,
        used: usize,
        region: u64,
    ) -> Changed<()>
        ensures { ClearFits self.space pages.old pool.old base used region true (record { result = result.result; state = record { space = result.space.space; flags = pages.new; pool = pool.new; used = result.used } }) }
    {
        self.clear_with(pages, pool, base, used, region, true)
    }

    // Unmaps all of the region and destroys all below it.
    pub fn clear(
        self,
        pages: &mut [u8],
        pool: &mut [u64],
        base: u64,
        used: usize,
        region: u64,
    ) -> Changed<()>
        ensures { ClearFits self.space pages.old pool.old base used region false (record { result = result.result; state = record { space = result.space.space; flags = pages.new; pool = pool.new; used = result.used } }) }
    {
        self.clear_with(pages, pool, base, used, region, false)
    }

    // Changes the rights of the pages in the range.
    pub fn protect(
        self,
        pages: &mut [u8],
        pool: &mut [u64],
        base: u64,
        used: usize,
        region: u64,
        addr: VirtAddr,
        len: u64,
        flags: MMUFlags,
    ) -> Answer<()>
        ensures { ProtectFits self.space pages.old pool.old base used region addr len flags.0 (record { space = result.space.space; done = record { result = result.result; flags = pages.new; pool = pool.new } }) }
    {
        if let Err(why) = check(&self.space, pages, pool, base, used) {
            return Answer {
                result: Err(why),
                space: self,
            };
        }
        let result = vmar_protect::protect(
            &self.space,
            pages,
            pool,
            base,
            used,
            region,
            addr,
            len,
            flags,
        );
        Answer {
            result,
            space: self,
        }
    }
}
