// The leaves for C callers: each export hands its numbers and slices to the call of the same name.
ghost use Rattle.std.specs.Prelude.{◌≡◌, min, max};
ghost use Rattle.format.specs.Answer.{flag_of, result_number};
ghost use Rattle.format.specs.Arith.{align_down, align_up, npw2, ctz, popc};
ghost use Rattle.format.specs.Bytes.{le32_at, be32_at, put_answer, put_le32, put_be32};
ghost use Rattle.format.specs.Count.{scmp};
ghost use Rattle.format.specs.Crc.{crc};
ghost use Rattle.format.specs.Pair.{pair_swapped, pair_null, pair_cmp, pair_sync};
ghost use Rattle.format.specs.Tag.{tag_valid, tag_type1, tag_type2, tag_type3, tag_chunk, tag_splice, tag_id, tag_size};
ghost use Rattle.format.specs.Tag.{tag_delete, tag_length, mk_tag, mk_tag_if};
ghost use Rattle.lanolin_answers.specs.Values.{word_out};

use format::LfsPair;
use lanolin_answers::{Value, altered_out, flag};

// ---- the checksum

#[unsafe(no_mangle)]
pub extern "C" fn lanolin_crc(sum: u32, bytes: &[u8]) -> u32
    ensures { result ≡ crc sum bytes.now }
{
    crc::lfs_crc(sum, bytes)
}

// ---- tags

#[unsafe(no_mangle)]
pub extern "C" fn lanolin_mktag(type_: u32, id: u32, size: u32) -> u32
    ensures { result ≡ mk_tag type_ id size }
{
    tag::lfs_mktag(type_, id, size)
}

#[unsafe(no_mangle)]
pub extern "C" fn lanolin_mktag_if(cond: bool, type_: u32, id: u32, size: u32) -> u32
    ensures { result ≡ mk_tag_if cond type_ id size }
{
    tag::lfs_mktag_if(cond, type_, id, size)
}

#[unsafe(no_mangle)]
pub extern "C" fn lanolin_tag_isvalid(tag: u32) -> u32
    ensures { result ≡ flag_of (tag_valid tag) }
{
    flag(tag::lfs_tag_isvalid(tag))
}

#[unsafe(no_mangle)]
pub extern "C" fn lanolin_tag_isdelete(tag: u32) -> u32
    ensures { result ≡ flag_of (tag_delete tag) }
{
    flag(tag::lfs_tag_isdelete(tag))
}

#[unsafe(no_mangle)]
pub extern "C" fn lanolin_tag_type1(tag: u32) -> u32
    ensures { result ≡ tag_type1 tag }
{
    tag::lfs_tag_type1(tag) as u32
}

#[unsafe(no_mangle)]
pub extern "C" fn lanolin_tag_type2(tag: u32) -> u32
    ensures { result ≡ tag_type2 tag }
{
    tag::lfs_tag_type2(tag) as u32
}

#[unsafe(no_mangle)]
pub extern "C" fn lanolin_tag_type3(tag: u32) -> u32
    ensures { result ≡ tag_type3 tag }
{
    tag::lfs_tag_type3(tag) as u32
}

#[unsafe(no_mangle)]
pub extern "C" fn lanolin_tag_chunk(tag: u32) -> u32
    ensures { result ≡ tag_chunk tag }
{
    tag::lfs_tag_chunk(tag) as u32
}

#[unsafe(no_mangle)]
pub extern "C" fn lanolin_tag_splice(tag: u32) -> i32
    ensures { result ≡ tag_splice tag }
{
    tag::lfs_tag_splice(tag) as i32
}

#[unsafe(no_mangle)]
pub extern "C" fn lanolin_tag_id(tag: u32) -> u32
    ensures { result ≡ tag_id tag }
{
    tag::lfs_tag_id(tag) as u32
}

#[unsafe(no_mangle)]
pub extern "C" fn lanolin_tag_size(tag: u32) -> u32
    ensures { result ≡ tag_size tag }
{
    tag::lfs_tag_size(tag)
}

#[unsafe(no_mangle)]
pub extern "C" fn lanolin_tag_dsize(tag: u32) -> u32
    ensures { result ≡ tag_length tag }
{
    tag::lfs_tag_dsize(tag)
}

// ---- small arithmetic

#[unsafe(no_mangle)]
pub extern "C" fn lanolin_min(a: u32, b: u32) -> u32
    ensures { result ≡ min a b }
{
    util::lfs_min(a, b)
}

#[unsafe(no_mangle)]
pub extern "C" fn lanolin_max(a: u32, b: u32) -> u32
    ensures { result ≡ max a b }
{
    util::lfs_max(a, b)
}

#[unsafe(no_mangle)]
pub extern "C" fn lanolin_aligndown(a: u32, alignment: u32) -> Value
    ensures { result ≡ word_out (align_down a alignment) }
{
    Value::from(util::lfs_aligndown(a, alignment))
}

#[unsafe(no_mangle)]
pub extern "C" fn lanolin_alignup(a: u32, alignment: u32) -> Value
    ensures { result ≡ word_out (align_up a alignment) }
{
    Value::from(util::lfs_alignup(a, alignment))
}

#[unsafe(no_mangle)]
pub extern "C" fn lanolin_npw2(a: u32) -> u32
    ensures { result ≡ npw2 a }
{
    bits::lfs_npw2(a)
}

#[unsafe(no_mangle)]
pub extern "C" fn lanolin_ctz(a: u32) -> u32
    ensures { result ≡ ctz a }
{
    bits::lfs_ctz(a)
}

#[unsafe(no_mangle)]
pub extern "C" fn lanolin_popc(a: u32) -> u32
    ensures { result ≡ popc a }
{
    bits::lfs_popc(a)
}

#[unsafe(no_mangle)]
pub extern "C" fn lanolin_scmp(a: u32, b: u32) -> i32
    ensures { result ≡ scmp a b }
{
    util::lfs_scmp(a, b)
}

// ---- words in bytes

#[unsafe(no_mangle)]
pub extern "C" fn lanolin_le32_at(bytes: &[u8], at: usize) -> Value
    ensures { result ≡ word_out (le32_at bytes.now at) }
{
    Value::from(word::lfs_le32_at(bytes, at))
}

#[unsafe(no_mangle)]
pub extern "C" fn lanolin_be32_at(bytes: &[u8], at: usize) -> Value
    ensures { result ≡ word_out (be32_at bytes.now at) }
{
    Value::from(word::lfs_be32_at(bytes, at))
}

#[unsafe(no_mangle)]
pub extern "C" fn lanolin_put_le32(bytes: &mut [u8], at: usize, value: u32) -> i32
    ensures value { result ≡ result_number (put_answer bytes.old at) }
    ensures bytes_after { bytes.new ≡ put_le32 bytes.old at value }
{
    altered_out(word::lfs_put_le32(bytes, at, value))
}

#[unsafe(no_mangle)]
pub extern "C" fn lanolin_put_be32(bytes: &mut [u8], at: usize, value: u32) -> i32
    ensures value { result ≡ result_number (put_answer bytes.old at) }
    ensures bytes_after { bytes.new ≡ put_be32 bytes.old at value }
{
    altered_out(word::lfs_put_be32(bytes, at, value))
}

// ---- pairs

#[unsafe(no_mangle)]
pub extern "C" fn lanolin_pair_swap(p0: u32, p1: u32) -> LfsPair
    ensures { result ≡ pair_swapped (record { n0 = p0; n1 = p1 }) }
{
    util::lfs_pair_swap(LfsPair { n0: p0, n1: p1 })
}

#[unsafe(no_mangle)]
pub extern "C" fn lanolin_pair_isnull(p0: u32, p1: u32) -> u32
    ensures { result ≡ flag_of (pair_null (record { n0 = p0; n1 = p1 })) }
{
    flag(util::lfs_pair_isnull(LfsPair { n0: p0, n1: p1 }))
}

#[unsafe(no_mangle)]
pub extern "C" fn lanolin_pair_cmp(p0: u32, p1: u32, q0: u32, q1: u32) -> i32
    ensures { result ≡ pair_cmp (record { n0 = p0; n1 = p1 }) (record { n0 = q0; n1 = q1 }) }
{
    util::lfs_pair_cmp(LfsPair { n0: p0, n1: p1 }, LfsPair { n0: q0, n1: q1 })
}

#[unsafe(no_mangle)]
pub extern "C" fn lanolin_pair_issync(p0: u32, p1: u32, q0: u32, q1: u32) -> u32
    ensures { result ≡ flag_of (pair_sync (record { n0 = p0; n1 = p1 }) (record { n0 = q0; n1 = q1 })) }
{
    flag(util::lfs_pair_issync(LfsPair { n0: p0, n1: p1 }, LfsPair { n0: q0, n1: q1 }))
}
