// Small arithmetic and pairs: util.rs, lfs_util.h and lfs.c's lfs_pair_*. Every function takes any numbers. Of util.rs,
// lfs_npw2, lfs_ctz and lfs_popc stand in crate `bits`, words in bytes (lfs_fromle32, ..) in crate `word`; the path
// helpers are left out.
#![tactic(auto)]

ghost use Rattle.std.specs.Prelude.{◌≡◌, min, max};
ghost use Rattle.format.specs.Count.{scmp};
ghost use Rattle.format.specs.Arith.{align_down, align_up};
ghost use Rattle.format.specs.Pair.{pair_swapped, pair_null, pair_cmp, pair_sync};

use format::types::LFS_BLOCK_NULL;
use format::{LfsPair, Refusal};

// Per lfs_util.h lfs_max.
pub fn lfs_max(a: u32, b: u32) -> u32
    ensures { result ≡ max a b }
{
    a.max(b)
}

// Per lfs_util.h lfs_min.
pub fn lfs_min(a: u32, b: u32) -> u32
    ensures { result ≡ min a b }
{
    a.min(b)
}

// Per lfs_util.h lfs_aligndown, but alignment 0, at which the Rust panics, is refused.
pub fn lfs_aligndown(a: u32, alignment: u32) -> Result<u32, Refusal>
    ensures { result ≡ align_down a alignment }
{
    if alignment == 0 {
        return Err(Refusal::Invalid);
    }
    let below = a - a % alignment;
    Ok(below)
}

// Per lfs_util.h lfs_alignup: the sum wraps.
pub fn lfs_alignup(a: u32, alignment: u32) -> Result<u32, Refusal>
    ensures { result ≡ align_up a alignment }
{
    let above = a.wrapping_add(alignment);
    lfs_aligndown(above.wrapping_sub(1), alignment)
}

// Per lfs_util.h lfs_scmp: a - b, wrapping, read as signed.
pub fn lfs_scmp(a: u32, b: u32) -> i32
    ensures { result ≡ scmp a b }
{
    a.wrapping_sub(b).cast_signed()
}

// Per lfs.c lfs_pair_swap.
pub fn lfs_pair_swap(pair: LfsPair) -> LfsPair
    ensures { result ≡ pair_swapped pair }
{
    LfsPair {
        n0: pair.n1,
        n1: pair.n0,
    }
}

// Per lfs.c lfs_pair_isnull.
pub fn lfs_pair_isnull(pair: LfsPair) -> bool
    ensures { result ≡ pair_null pair }
{
    (pair.n0 == LFS_BLOCK_NULL) | (pair.n1 == LFS_BLOCK_NULL)
}

// Per lfs.c lfs_pair_cmp: 0 where the pairs share a block, and else 1.
pub fn lfs_pair_cmp(paira: LfsPair, pairb: LfsPair) -> i32
    ensures { result ≡ pair_cmp paira pairb }
{
    let shares = (paira.n0 == pairb.n0)
        | (paira.n1 == pairb.n1)
        | (paira.n0 == pairb.n1)
        | (paira.n1 == pairb.n0);
    if shares { 0 } else { 1 }
}

// Per lfs.c lfs_pair_issync: the same two blocks, in either order; by fields, as lfs.c and its definition.
pub fn lfs_pair_issync(paira: LfsPair, pairb: LfsPair) -> bool
    ensures { result ≡ pair_sync paira pairb }
{
    ((paira.n0 == pairb.n0) & (paira.n1 == pairb.n1))
        | ((paira.n0 == pairb.n1) & (paira.n1 == pairb.n0))
}
