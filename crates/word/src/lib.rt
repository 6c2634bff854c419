// Words of 32 bits in bytes: what util.rs has as lfs_fromle32, lfs_tole32, lfs_frombe32 and lfs_tobe32 over a pointer
// cast is here a read or a store of four bytes at an offset of a slice. Any slice and offset; what passes the end is
// refused, and a refused store alters nothing.
#![tactic(auto)]

ghost use Rattle.std.specs.Prelude.{◌≡◌, ◌++◌};
ghost use Rattle.format.specs.Word.{to_le32, to_be32};
ghost use Rattle.format.specs.Bytes.{inside, le32_at, be32_at, put_answer, put_le32, put_be32};

use format::Refusal;

// The same at an offset that the caller knows to be inside. They have a `requires`, and are for the crates of this
// repository.
pub mod within;

// The four bytes of a word, lowest first.
pub fn le_bytes(v: u32) -> [u8; 4]
    ensures { result ≡ to_le32 v }
{
    v.to_le_bytes()
}

// The eight bytes of two words, each lowest first. Byte by byte: std joins arrays only on the heap.
pub fn le_pair(a: u32, b: u32) -> [u8; 8]
    ensures { result ≡ to_le32 a ++ to_le32 b }
{
    let x = le_bytes(a);
    let y = le_bytes(b);
    [x[0], x[1], x[2], x[3], y[0], y[1], y[2], y[3]]
}

// The four bytes of a word, highest first.
pub fn be_bytes(v: u32) -> [u8; 4]
    ensures { result ≡ to_be32 v }
{
    v.to_be_bytes()
}

// Whether four bytes at `at` are inside; `at` may be any number.
fn has_word(s: &[u8], at: usize) -> bool
    ensures { result ≡ inside s.now at }
{
    4 <= s.len() && at <= s.len() - 4
}

// The little-endian word at an offset. One function for either order would be handed the order as a trait with two laws
// about the bytes, where each of these is a line over the library's own pair, from_le_bytes and from_be_bytes.
pub fn lfs_le32_at(s: &[u8], at: usize) -> Result<u32, Refusal>
    ensures { result ≡ le32_at s.now at }
{
    if has_word(s, at) {
        Ok(within::le32(s, at))
    } else {
        Err(Refusal::Corrupt)
    }
}

// The big-endian word at an offset.
pub fn lfs_be32_at(s: &[u8], at: usize) -> Result<u32, Refusal>
    ensures { result ≡ be32_at s.now at }
{
    if has_word(s, at) {
        Ok(within::be32(s, at))
    } else {
        Err(Refusal::Corrupt)
    }
}

// A word stored little-endian at an offset; a refusal alters nothing.
pub fn lfs_put_le32(s: &mut [u8], at: usize, v: u32) -> Result<(), Refusal>
    ensures value { result ≡ put_answer s.old at }
    ensures s_after { s.new ≡ put_le32 s.old at v }
{
    if has_word(s, at) {
        within::put_le32(s, at, v);
        Ok(())
    } else {
        Err(Refusal::Corrupt)
    }
}

// A word stored big-endian at an offset; a refusal alters nothing.
pub fn lfs_put_be32(s: &mut [u8], at: usize, v: u32) -> Result<(), Refusal>
    ensures value { result ≡ put_answer s.old at }
    ensures s_after { s.new ≡ put_be32 s.old at v }
{
    if has_word(s, at) {
        within::put_be32(s, at, v);
        Ok(())
    } else {
        Err(Refusal::Corrupt)
    }
}
