// The global state: lfs_gstate.rs, lfs.c's lfs_gstate_*. Two layers: what is computed, on states by value, for every
// caller of this repository; and littlefs's own functions, thin, which take the state where it stands, by `&` or
// `&mut`, and call the first. (lfs_gstate_fromle32 and lfs_gstate_tole32 have no counterpart: a state is read from
// bytes, see docs/DECISIONS.md.)
#![tactic(auto)]

ghost use Rattle.std.specs.Prelude.{◌≡◌};
ghost use Rattle.format.specs.Gstate.{gstate_xor, gstate_zero, gstate_has_orphans, gstate_orphans};
ghost use Rattle.format.specs.Gstate.{gstate_needs_superblock};
ghost use Rattle.format.specs.Gstate.{gstate_has_move, gstate_has_move_here};

use format::{LfsGstate, LfsPair};

// ---- by value

pub fn xored(a: LfsGstate, b: LfsGstate) -> LfsGstate
    ensures { result ≡ gstate_xor a b }
{
    let p = a.pair;
    let q = b.pair;
    LfsGstate {
        tag: a.tag ^ b.tag,
        pair: LfsPair {
            n0: p.n0 ^ q.n0,
            n1: p.n1 ^ q.n1,
        },
    }
}

// By fields, as its definition.
pub fn is_zero(a: LfsGstate) -> bool
    ensures { result ≡ gstate_zero a }
{
    let p = a.pair;
    (a.tag == 0) & (p.n0 == 0) & (p.n1 == 0)
}

pub fn has_orphans(a: LfsGstate) -> bool
    ensures { result ≡ gstate_has_orphans a }
{
    tag::lfs_tag_size(a.tag) != 0
}

// The Rust masks nine bits and then casts to a byte, which keeps eight of them.
pub fn orphans(a: LfsGstate) -> u8
    ensures { result ≡ gstate_orphans a }
{
    (tag::lfs_tag_size(a.tag) % 0x100) as u8
}

pub fn has_move(a: LfsGstate) -> bool
    ensures { result ≡ gstate_has_move a }
{
    tag::lfs_tag_type1(a.tag) != 0
}

pub fn needs_superblock(a: LfsGstate) -> bool
    ensures { result ≡ gstate_needs_superblock a }
{
    tag::lfs_tag_size(a.tag) / 0x200 != 0
}

// A move is pending, and its pair shares a block with the given one.
pub fn has_move_here(a: LfsGstate, n0: u32, n1: u32) -> bool
    ensures { result ≡ gstate_has_move_here a (record { n0 = n0; n1 = n1 }) }
{
    let here = util::lfs_pair_cmp(a.pair, LfsPair { n0: n0, n1: n1 }) == 0;
    has_move(a) & here
}

// ---- where the state stands

// Per lfs.c lfs_gstate_xor.
pub fn lfs_gstate_xor(a: &mut LfsGstate, b: &LfsGstate)
    ensures { a.new ≡ gstate_xor a.old b.now }
{
    *a = xored(*a, *b);
}

// Per lfs.c lfs_gstate_iszero.
pub fn lfs_gstate_iszero(a: &LfsGstate) -> bool
    ensures { result ≡ gstate_zero a.now }
{
    is_zero(*a)
}

// Per lfs.c lfs_gstate_hasorphans.
pub fn lfs_gstate_hasorphans(a: &LfsGstate) -> bool
    ensures { result ≡ gstate_has_orphans a.now }
{
    has_orphans(*a)
}

// Per lfs.c lfs_gstate_getorphans.
pub fn lfs_gstate_getorphans(a: &LfsGstate) -> u8
    ensures { result ≡ gstate_orphans a.now }
{
    orphans(*a)
}

// Per lfs.c lfs_gstate_hasmove.
pub fn lfs_gstate_hasmove(a: &LfsGstate) -> bool
    ensures { result ≡ gstate_has_move a.now }
{
    has_move(*a)
}

// Per lfs.c lfs_gstate_needssuperblock.
pub fn lfs_gstate_needssuperblock(a: &LfsGstate) -> bool
    ensures { result ≡ gstate_needs_superblock a.now }
{
    needs_superblock(*a)
}

// Per lfs.c lfs_gstate_hasmovehere; the pair as two numbers, as C hands it.
pub fn lfs_gstate_hasmovehere(a: &LfsGstate, n0: u32, n1: u32) -> bool
    ensures { result ≡ gstate_has_move_here a.now (record { n0 = n0; n1 = n1 }) }
{
    has_move_here(*a, n0, n1)
}
