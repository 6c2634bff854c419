// An entry's info: its type and name from one lookup, its size from a second.
ghost use Rattle.std.specs.Prelude.{◌≡◌, ◌≤◌, length};
ghost use Rattle.format.specs.Lookup.{info_root, info_size, info_of, read_answer, read_buffer, searched};
ghost use Rattle.format.specs.Lookup.{name_mask, name_key, struct_mask, struct_key};
ghost use Rattle.lookup.specs.Info.{info_named};

use format::types::*;
use format::{LfsGstate, LfsInfo, LfsMdir, Refusal};

// "id 1,023 is the root"
pub fn root() -> LfsInfo
    ensures { result ≡ info_root }
{
    let mut name = [0u8; 256];
    name[0] = b'/';
    LfsInfo {
        kind: LFS_TYPE_DIR as u8,
        size: 0,
        name,
    }
}

// The size of what a struct's tag and eight bytes tell: a CTZ list has it in its second word, an inline file in the
// tag.
pub fn size_of(t: u32, s: &[u8]) -> u32
    requires { 8 ≤ length s.now }
    ensures { result ≡ info_size t s.now }
{
    let kind = tag::lfs_tag_type3(t);
    if kind == LFS_TYPE_CTZSTRUCT {
        return word::within::le32(s, 4);
    }
    if kind == LFS_TYPE_INLINESTRUCT {
        return tag::lfs_tag_size(t);
    }
    0
}

// The info of an entry whose name is read: t is the name's tag.
fn named(
    b: &[u8],
    dir: LfsMdir,
    gdisk: LfsGstate,
    id: u32,
    t: u32,
    name: [u8; 256],
) -> Result<LfsInfo, Refusal>
    requires { (dir.off ≤ length b.now) × (id ≤ 1023) }
    ensures { result ≡ info_named t name
        (read_answer b.now 8 (searched b.now dir gdisk struct_mask (struct_key id)))
        (read_buffer b.now 8 (searched b.now dir gdisk struct_mask (struct_key id))) }
{
    let mut s = [0u8; 8];
    let gmask = tag::lfs_mktag(TYPE1_MASK, NO_SLOT, 0);
    let gtag = tag::lfs_mktag(LFS_TYPE_STRUCT as u32, id, 8);
    let found = lookup_search::slice::read(b, dir, gdisk, gmask, gtag, 0, &mut s)?;
    Ok(LfsInfo {
        kind: (tag::lfs_tag_type3(t) % 0x100) as u8,
        size: size_of(found.tag, &s),
        name,
    })
}

// The info of an entry. The name is read into the front of a buffer of zeros, so what is not read of it is 0.
pub fn read(
    b: &[u8],
    dir: LfsMdir,
    gdisk: LfsGstate,
    name_max: u32,
    id: u32,
) -> Result<LfsInfo, Refusal>
    requires { (dir.off ≤ length b.now) × (name_max ≤ 255) × (id ≤ 1023) }
    ensures { result ≡ info_of b.now name_max
        (searched b.now dir gdisk name_mask (name_key id name_max))
        (searched b.now dir gdisk struct_mask (struct_key id)) }
{
    let mut name = [0u8; 256];
    let size = name_max as usize + 1;
    let gmask = tag::lfs_mktag(TYPE2_MASK, NO_SLOT, 0);
    let gtag = tag::lfs_mktag(LFS_TYPE_NAME as u32, id, name_max + 1);
    let found = lookup_search::slice::read(b, dir, gdisk, gmask, gtag, 0, &mut name[..size])?;
    named(b, dir, gdisk, id, found.tag, name)
}
