// The Rust's own lfs_npw2, lfs_ctz and lfs_popc, by shifts, proved against the definitions that crate `bits` meets by
// the language's counts; and that the two agree on every word. Nothing that is shipped stands on it.
#![tactic(auto)]

ghost use Rattle.std.specs.Prelude.{◌≡◌, true};
ghost use Rattle.format.specs.Arith.{npw2, ctz, popc};

// The Rust's shifts and the counts give the same, whatever the word.
pub fn agree(a: u32) -> bool
    ensures { result ≡ true }
{
    (lfs_npw2(a) == bits::lfs_npw2(a))
        & (lfs_ctz(a) == bits::lfs_ctz(a))
        & (lfs_popc(a) == bits::lfs_popc(a))
}

// Per util.rs lfs_npw2: four steps, each of which halves the digits that are left, and the upper one of the last two.
pub fn lfs_npw2(a: u32) -> u32
    ensures { result ≡ npw2 a }
{
    let a4 = a.wrapping_sub(1);
    let s4 = (a4 > 0xffff) as u32;
    let a3 = a4 >> (s4 << 4);
    let s3 = (a3 > 0xff) as u32;
    let a2 = a3 >> (s3 << 3);
    let s2 = (a2 > 0xf) as u32;
    let a1 = a2 >> (s2 << 2);
    let s1 = (a1 > 0x3) as u32;
    let a0 = a1 >> (s1 << 1);
    (s4 << 4 | s3 << 3 | s2 << 2 | s1 << 1 | a0 >> 1) + 1
}

// Per util.rs lfs_ctz: a & -a has the lowest set digit alone.
pub fn lfs_ctz(a: u32) -> u32
    ensures { result ≡ ctz a }
{
    let low = a & a.wrapping_neg();
    lfs_npw2(low.wrapping_add(1)) - 1
}

// Per util.rs lfs_popc: the set digits of each two, of each four, of each byte, and of all bytes by a product. The
// Rust's product wraps; here it is taken in 64 bits, of which the fourth byte is the same.
pub fn lfs_popc(a: u32) -> u32
    ensures { result ≡ popc a }
{
    let twos = a - (a >> 1 & 0x5555_5555);
    let fours = (twos & 0x3333_3333) + (twos >> 2 & 0x3333_3333);
    let bytes = fours.wrapping_add(fours >> 4) & 0x0f0f_0f0f;
    ((bytes as u64) * 0x0101_0101 >> 24 & 0xff) as u32
}
