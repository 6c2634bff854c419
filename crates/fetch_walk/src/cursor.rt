// A cursor over one block, and the step that reads what stands there: the lexing of `lfs_dir_fetchmatch`'s loop. Bytes
// are summed once each: an entry's tag and data in one pass, a check's tag in another, and nothing before the length is
// known to fit.
ghost use Rattle.std.specs.Prelude.{◌≡◌, ◌+◌, ◌^◌, ◌≤◌, ◌<◌, length, drop};
ghost use Rattle.format.specs.Tag.{tag_length, tag_flipped};
ghost use Rattle.format.specs.Kind.{is_check};
ghost use Rattle.format.specs.Walk.{read_behind};
ghost use Rattle.fetch_walk.specs.Next.{start_of, next_of, tag_seen, check_seen, after_entry, CheckFits};

use format::types::*;

// Where the walk stands: the next tag's place, the tag before it, and the checksum so far.
#[derive(Clone, Copy)]
pub struct Cursor {
    pub at: usize,
    pub prev: u32,
    pub sum: u32,
}

// What stands at a cursor, with the cursor behind it.
// Four cases and no Result: a walk matches all of them, and none hands a stop on by `?`.
#[derive(Clone, Copy)]
pub enum Seen {
    // an entry: its tag
    Entry(u32, Cursor),
    // a commit check that fits: its checksum
    Check(u32, Cursor),
    // a tag with bit 31 set
    Invalid,
    // an entry or a read past the block, or a checksum that doesn't fit
    Past,
}

impl Cursor {
    // Behind the four revision bytes.
    pub fn start(b: &[u8]) -> Self
        requires { 4 ≤ length b.now }
        ensures { result ≡ start_of b.now }
    {
        Cursor {
            at: 4,
            prev: FIRST_PREV,
            sum: crc::lfs_crc(CRC_START, &b[0..4]),
        }
    }

    // "Each step reads four bytes big-endian .. and XORs with the previous tag."
    pub fn next(self, b: &[u8]) -> Seen
        ensures { result ≡ next_of b.now self }
    {
        let at = self.at;
        let n = b.len();
        if n < 4 {
            return Seen::Past;
        }
        if n - 4 < at {
            return Seen::Past;
        }
        let tag = word::within::be32(b, at) ^ self.prev;
        tag_at(b, at, tag, self.sum)
    }
}

// "The walk stops on an invalid tag, on an entry passing the block, or on any read past it." `sum` is the checksum
// before the tag.
fn tag_at(b: &[u8], at: usize, tag: u32, sum: u32) -> Seen
    requires { at + 4 ≤ length b.now }
    ensures { result ≡ tag_seen b.now at tag sum }
{
    if 0x8000_0000 <= tag {
        return Seen::Invalid;
    }
    let left = b.len() - at;
    if left < tag_length(tag) {
        return Seen::Past;
    }
    if left < 4 + read_behind(tag) {
        return Seen::Past;
    }
    if is_check(tag) {
        check_at(b, at, tag, sum)
    } else {
        Seen::Entry(tag, entry_at(b, at, tag, sum))
    }
}

// "four little-endian bytes behind the tag equal the checksum, or the walk stops": the check tag's own four bytes are
// in the checksum.
fn check_at(b: &[u8], at: usize, tag: u32, sum: u32) -> Seen
    requires { CheckFits b.now at tag }
    ensures { result ≡ check_seen (drop at b.now) at tag sum }
{
    let behind = at + 4;
    let stored = word::within::le32(b, behind);
    if crc::lfs_crc(sum, &b[at..behind]) != stored {
        return Seen::Past;
    }
    let next = at + tag_length(tag);
    let prev = flipped(tag);
    Seen::Check(
        stored,
        Cursor {
            at: next,
            prev,
            sum: CRC_START,
        },
    )
}

// "An entry's data, a check's excepted, are added too."
fn entry_at(b: &[u8], at: usize, tag: u32, sum: u32) -> Cursor
    requires { at + tag_length tag ≤ length b.now }
    ensures { result ≡ after_entry (drop at b.now) at tag sum }
{
    let next = at + tag_length(tag);
    Cursor {
        at: next,
        prev: tag,
        sum: crc::lfs_crc(sum, &b[at..next]),
    }
}

// The stored length, as an offset is counted.
fn tag_length(tag: u32) -> usize
    ensures { (result ≡ tag_length tag) × (result ≤ 1_026) }
{
    tag::lfs_tag_dsize(tag) as usize
}

// "commit check 0x500 under type2"
pub fn is_check(tag: u32) -> bool
    ensures { result ≡ is_check tag }
{
    tag::lfs_tag_type2(tag) == LFS_TYPE_CCRC
}

// How many bytes are read behind a tag whatever its size: a check's checksum; the eight of a tail and of a forward
// check.
fn read_behind(tag: u32) -> usize
    ensures { (result ≡ read_behind tag) × (result ≤ 8) }
{
    if is_check(tag) {
        return 4;
    }
    let wide = (tag::lfs_tag_type1(tag) == LFS_TYPE_TAIL)
        | (tag::lfs_tag_type3(tag) == LFS_TYPE_FCRC);
    if wide { 8 } else { 0 }
}

// "chunk's low bit flips bit 31 of the previous tag"
pub fn flipped(tag: u32) -> u32
    requires { tag < 2 ^ 31 }
    ensures { result ≡ tag_flipped tag }
{
    tag + tag / 0x10_0000 % 2 * 0x8000_0000
}
