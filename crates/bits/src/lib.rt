// The binary log, the trailing zeros and the set digits of a word: util.rs, by the language's counts. Crate
// `bits_shifts` has the Rust's own shifts, proved to give the same.
#![tactic(auto)]

ghost use Rattle.std.specs.Prelude.{◌≡◌};
ghost use Rattle.format.specs.Arith.{npw2, ctz, popc};

// Per lfs_util.h lfs_npw2: how many binary digits a - 1 has, and at least 1. That is the least n from 1 on with a at
// most 2 to the n; and for 0, from which the subtraction wraps, 32.
pub fn lfs_npw2(a: u32) -> u32
    ensures { result ≡ npw2 a }
{
    util::lfs_max(1, 32 - u32::leading_zeros(a.wrapping_sub(1)))
}

// Per lfs_util.h lfs_ctz: how many zeros stand below the lowest set digit; 0 for 0, where the language counts 32.
pub fn lfs_ctz(a: u32) -> u32
    ensures { result ≡ ctz a }
{
    if a == 0 { 0 } else { u32::trailing_zeros(a) }
}

// Per lfs_util.h lfs_popc: how many digits are set.
pub fn lfs_popc(a: u32) -> u32
    ensures { result ≡ popc a }
{
    u32::count_ones(a)
}
