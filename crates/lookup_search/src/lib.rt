// The search of a lookup: the newest entry that a mask and a key match, met on the way back from the end of a block's
// committed log. This is the loop of traverse.rs lfs_dir_getslice; what is done with the entry that it finds stands in
// `slice` and in crate `lookup`, and compaction finds its move state by it. The functions require that the end is
// inside the block: beside the record, which is C's struct and holds no block. They are for the crates of this
// repository.
#![tactic(auto)]

ghost use Rattle.std.specs.Prelude.{◌≡◌, ◌+◌, ◌^◌, ◌<◌, ◌≤◌, cond, length, if◌then◌else◌};
ghost use Rattle.format.specs.Word.{plus32, minus32};
ghost use Rattle.format.specs.Tag.{tag_splice};
ghost use Rattle.format.specs.Back.{back};
ghost use Rattle.format.specs.Look.{found_at, HitIn, as_ids, spliced_at, create_at, wlook};
ghost use Rattle.format.specs.Lookup.{has_ids, searched};

use format::types::{LFS_TYPE_CREATE, LFS_TYPE_SPLICE};
use format::{Found, LfsGstate, LfsMdir};

pub mod slice;

// Whether a tag is a splice at or below the key's id; `ids`: the mask has any id bit.
fn splices(ids: bool, tag: u32, key: u32) -> bool
    ensures { result ≡ spliced_at ids tag key }
{
    ids & (tag::lfs_tag_type1(tag) == LFS_TYPE_SPLICE)
        & (tag::lfs_tag_id(tag) <= tag::lfs_tag_id(key))
}

// The create tag of the key's id.
fn create_at(key: u32) -> u32
    ensures { result ≡ create_at key }
{
    tag::lfs_mktag(LFS_TYPE_CREATE as u32, tag::lfs_tag_id(key) as u32, 0)
}

// A tag's splice as ids, a word that wraps: counted from the lowest splice, and the 128 ids of that taken away.
fn splice_as_ids(tag: u32) -> u32
    ensures { result ≡ as_ids (tag_splice tag) }
{
    (tag::splice_from_lowest(tag) * 0x400).wrapping_sub(0x2_0000)
}

// The difference behind a tag: both are there before the choice, so that it compiles to a select. Where the splices of
// a log stand, no branch could guess.
fn diff_after(spliced: bool, tag: u32, gdiff: u32) -> u32
    ensures { result ≡ (if spliced then plus32 gdiff (as_ids (tag_splice tag)) else gdiff) }
{
    let next = gdiff.wrapping_add(splice_as_ids(tag));
    if spliced { next } else { gdiff }
}

// The key without the difference: what an older tag of the same entry has.
fn key_at(gtag: u32, gdiff: u32) -> u32
    ensures { result ≡ minus32 gtag gdiff }
{
    gtag.wrapping_sub(gdiff)
}

// The entry of a tag that stands at `at`, found with a difference: its length counts the tag, its data begin behind it.
fn found_at(tag: u32, at: usize, diff: u32) -> Found
    requires { at + 4 < 2 ^ 32 }
    ensures { result ≡ found_at tag at diff }
{
    Found {
        tag: tag.wrapping_add(diff),
        length: tag::lfs_tag_dsize(tag),
        off: (at + 4) as u32,
    }
}

// The walk back, from an end, the tag that ends there, and a difference. A turn has no branch but the three that end
// it: what is rare, and the match.
pub fn find_back(b: &[u8], end: u32, etag: u32, gmask: u32, gtag: u32, diff: u32) -> Option<Found>
    requires { end ≤ length b.now }
    ensures { (result ≡ wlook (has_ids gmask) gmask gtag diff (back b.now end etag)) × HitIn end result }
{
    let ids = tag::lfs_tag_id(gmask) != 0;
    let mut gdiff = diff;
    for (at, tag) in lookup_back::Back::new(b, end as usize, etag) {
        let key = key_at(gtag, gdiff);
        let spliced = splices(ids, tag, key);
        if spliced & (tag == create_at(key)) {
            return None;
        }
        let next = diff_after(spliced, tag, gdiff);
        // the match is tested with the tag's own splice added
        if tag & gmask == key_at(gtag, next) & gmask {
            if tag::lfs_tag_isdelete(tag) {
                return None;
            }
            return Some(found_at(tag, at, next));
        }
        gdiff = next;
    }
    None
}

// The difference that a search starts with: a pending move of a lower id takes one id away.
fn first_diff(moved_below: bool) -> u32
    ensures { result ≡ cond moved_below (minus32 0 (2 ^ 10)) 0 }
{
    if moved_below { key_at(0, 0x400) } else { 0 }
}

// The newest entry of a record's block. A pending move is compared with the id that was asked for, before any splice.
pub fn newest(b: &[u8], dir: LfsMdir, gdisk: LfsGstate, gmask: u32, gtag: u32) -> Option<Found>
    requires { dir.off ≤ length b.now }
    ensures { (result ≡ searched b.now dir gdisk gmask gtag) × HitIn dir.off result }
{
    let pair = dir.pair;
    let moves = (tag::lfs_tag_id(gmask) != 0) & gstate::has_move_here(gdisk, pair.n0, pair.n1);
    let moved = tag::lfs_tag_id(gdisk.tag);
    let id = tag::lfs_tag_id(gtag);
    if moves & (moved == id) {
        return None;
    }
    find_back(
        b,
        dir.off,
        dir.etag,
        gmask,
        gtag,
        first_diff(moves & (moved < id)),
    )
}
