// The tag of a metadata log: tag.rs, lfs.c's LFS_MKTAG and lfs_tag_*. Every function takes any word.
// Fields are taken by `/` and `%` of powers of two, which compile to the shifts and masks of the C.
#![tactic(auto)]

ghost use Rattle.std.specs.Prelude.{◌≡◌, ◌^◌, ◌<◌};
ghost use Rattle.format.specs.Tag.{tag_valid, tag_type1, tag_type2, tag_type3, tag_chunk, tag_splice, tag_id, tag_size};
ghost use Rattle.format.specs.Tag.{tag_delete, tag_length, mk_tag, mk_tag_if};
ghost use Rattle.tag.specs.Splice.{from_lowest};

use format::types::{LFS_FROM_NOOP, REMOVAL};

// Per lfs.c LFS_MKTAG: any three words, nothing masked.
pub fn lfs_mktag(type_: u32, id: u32, size: u32) -> u32
    ensures { result ≡ mk_tag type_ id size }
{
    type_ << 20 | id << 10 | size
}

// Per lfs.c LFS_MKTAG_IF.
pub fn lfs_mktag_if(cond: bool, type_: u32, id: u32, size: u32) -> u32
    ensures { result ≡ mk_tag_if cond type_ id size }
{
    if cond {
        lfs_mktag(type_, id, size)
    } else {
        lfs_mktag(LFS_FROM_NOOP as u32, 0, 0)
    }
}

// Per lfs.c lfs_tag_isvalid.
pub fn lfs_tag_isvalid(tag: u32) -> bool
    ensures { result ≡ tag_valid tag }
{
    tag < 0x8000_0000
}

// Per lfs.c lfs_tag_isdelete.
pub fn lfs_tag_isdelete(tag: u32) -> bool
    ensures { result ≡ tag_delete tag }
{
    lfs_tag_size(tag) == REMOVAL
}

// Per lfs.c lfs_tag_type1.
pub fn lfs_tag_type1(tag: u32) -> u16
    ensures { result ≡ tag_type1 tag }
{
    (tag / 0x1000_0000 % 0x8 * 0x100) as u16
}

// Per lfs.c lfs_tag_type2.
pub fn lfs_tag_type2(tag: u32) -> u16
    ensures { result ≡ tag_type2 tag }
{
    (tag / 0x800_0000 % 0x10 * 0x80) as u16
}

// Per lfs.c lfs_tag_type3.
pub fn lfs_tag_type3(tag: u32) -> u16
    ensures { result ≡ tag_type3 tag }
{
    (tag / 0x10_0000 % 0x800) as u16
}

// Per lfs.c lfs_tag_chunk.
pub fn lfs_tag_chunk(tag: u32) -> u8
    ensures { result ≡ tag_chunk tag }
{
    (tag / 0x10_0000 % 0x100) as u8
}

// Per lfs.c lfs_tag_splice: the chunk as signed.
pub fn lfs_tag_splice(tag: u32) -> i8
    ensures { result ≡ tag_splice tag }
{
    lfs_tag_chunk(tag).cast_signed()
}

// A tag's splice counted from the lowest, -128: what adds a splice to an unsigned number adds this and takes 128 away.
pub fn splice_from_lowest(tag: u32) -> u32
    ensures { (result ≡ from_lowest (tag_splice tag)) × (result < 2 ^ 8) }
{
    (lfs_tag_splice(tag) as i32 + 128) as u32
}

// Per lfs.c lfs_tag_id.
pub fn lfs_tag_id(tag: u32) -> u16
    ensures { result ≡ tag_id tag }
{
    (tag / 0x400 % 0x400) as u16
}

// Per lfs.c lfs_tag_size.
pub fn lfs_tag_size(tag: u32) -> u32
    ensures { result ≡ tag_size tag }
{
    tag % 0x400
}

// Per lfs.c lfs_tag_dsize: the stored length, the tag's own four bytes with it.
pub fn lfs_tag_dsize(tag: u32) -> u32
    ensures { result ≡ tag_length tag }
{
    let size = lfs_tag_size(tag);
    if size == REMOVAL { 4 } else { 4 + size }
}
