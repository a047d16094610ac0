// zircon-object/src/vm/mod.rs: alignment helpers. All are total; `docs/DECISIONS.md` says what stands where the Rust divides by zero.
#![tactic(auto)]

ghost use Rattle.std.specs.Prelude.{◌≡◌, ◌-◌, ◌*◌, ◌%◌};
ghost use Rattle.vm.specs.Align.{multiple, needed};

use common::defs::PAGE_SIZE;

// Whether `x` is a multiple of `PAGE_SIZE`. The Rust has a name for each of these, over `check_aligned` and `ceil`.
pub fn page_aligned(x: u64) -> bool
    ensures { result ≡ multiple x 4096 }
{
    check_aligned(x, PAGE_SIZE)
}

// Whether `x` is a multiple of `align`: of 0 only 0 is.
pub fn check_aligned(x: u64, align: u64) -> bool
    ensures { result ≡ multiple x align }
{
    x.is_multiple_of(align)
}

// How many pages the `size` needs.
pub fn pages(size: u64) -> u64
    ensures { result ≡ needed size 4096 }
{
    ceil(size, PAGE_SIZE)
}

// How many `align` the `x` needs: 0 where the sum wraps, as in the Rust, and 0 for `align` 0.
pub fn ceil(x: u64, align: u64) -> u64
    ensures { result ≡ needed x align }
{
    if align == 0 {
        return 0;
    }
    x.wrapping_add(align - 1) / align
}

// `size` rounded up to a multiple of `PAGE_SIZE`.
pub fn roundup_pages(size: u64) -> u64
    ensures { result ≡ needed size 4096 * 4096 }
{
    pages(size) * PAGE_SIZE
}

// `size` rounded down to a multiple of `PAGE_SIZE`.
pub fn round_down_pages(size: u64) -> u64
    ensures { result ≡ size - size % 4096 }
{
    size / PAGE_SIZE * PAGE_SIZE
}
