// The room that a commit is written to: where it ends, whether it carries a forward check, what stands against an
// append, and whether the check tag's checksums coincide. `erased` is the erased byte, 0xff or 0x00: that it is one of
// them the calls test, and nothing here asks for it.
#![tactic(auto)]

ghost use Rattle.std.specs.Prelude.{◌≡◌, ◌+◌, ◌≤◌, ◌<◌, length};
ghost use Rattle.format.specs.Erased.{validity_fits};
ghost use Rattle.format.specs.Commit.{check_tag};
ghost use Rattle.format.specs.Stores.{tag_coincides};
ghost use Rattle.format.specs.Room.{first_unerased, room_of};
ghost use Rattle.format.specs.Writer.{rounded_end, check_size, forward_length, unit_check, carried_for};
ghost use Rattle.commit_room.specs.Tests.{Prog};

use format::types::CRC_START;
use format::{LfsFcrc, Refusal};

// Tag and checksum of a check.
const CHECK_LENGTH: usize = 8;
// "a check tag 0x500, id 1,023", of size 0.
const LFS_CHECK_TAG: u32 = 0x500f_fc00;
// The same as 0x501: chunk's low bit flips the validity bit that the next tag must have.
const LFS_CHECK_TAG_FLIPS: u32 = 0x501f_fc00;
// A forward check's tag: "forward check 0x5ff", "id 1,023, length 8".
pub const LFS_FORWARD_TAG: u32 = 0x5fff_fc08;
// Its tag and data.
const FORWARD_LENGTH: usize = 12;

// Where a commit ends whose check tag stands at `at`: the next multiple of the program size behind tag and checksum.
pub fn rounded_end(prog: u32, at: usize) -> usize
    requires { Prog prog at }
    ensures { result ≡ rounded_end prog at }
{
    let unit = prog as usize;
    let last = at + CHECK_LENGTH + (unit - 1);
    last - last % unit
}

// "The check tag is 0x500 for 0xff and 0x501 for 0x00"; "Its size, 4 or more, is the least that ends on a multiple of
// the program size".
pub fn check_tag(erased: u8, prog: u32, at: usize) -> u32
    requires { Prog prog at }
    ensures { result ≡ check_tag erased (check_size prog at) }
{
    let size = rounded_end(prog, at) - (at + 4);
    if erased == 0x00 {
        return LFS_CHECK_TAG_FLIPS + (size as u32);
    }
    LFS_CHECK_TAG + (size as u32)
}

// The checksum of an erased program unit.
fn unit_sum(erased: u8, prog: u32) -> u32
    ensures { result ≡ (unit_check erased prog).sum }
{
    let mut sum = CRC_START;
    for _ in 0..prog {
        sum = crc::lfs_crc_byte(sum, erased);
    }
    sum
}

// The forward check of a commit whose entries end at `at`: it is carried "when at least one whole program unit follows
// the new end, counted with the added bytes".
pub fn forward(erased: u8, prog: u32, block: usize, at: usize) -> LfsFcrc
    requires { Prog prog (at + forward_length) }
    ensures { result ≡ carried_for erased prog block at }
{
    if block < rounded_end(prog, at + FORWARD_LENGTH) + (prog as usize) {
        return LfsFcrc {
            seen: false,
            size: 0,
            sum: 0,
        };
    }
    LfsFcrc {
        seen: true,
        size: prog,
        sum: unit_sum(erased, prog),
    }
}

// Past erased bytes from the old end on, eight at a step, as far as eight follow. For speed, since the room is most of
// what a commit reads beside its fetch: the compiler makes one comparison of the eight, where `all` would stop at each.
fn past_eights(erased: u8, b: &[u8], end: usize) -> usize
    ensures { first_unerased erased b.now result ≡ first_unerased erased b.now end }
{
    let mut at = end;
    while at < b.len() {
        if b.len() - at < 8 {
            return at;
        }
        let all = (b[at] == erased)
            & (b[at + 1] == erased)
            & (b[at + 2] == erased)
            & (b[at + 3] == erased)
            & (b[at + 4] == erased)
            & (b[at + 5] == erased)
            & (b[at + 6] == erased)
            & (b[at + 7] == erased);
        if !all {
            return at;
        }
        at += 8;
    }
    at
}

// The offset of the first byte from the old end on that isn't erased; where all are, the offset behind them.
// By number: `end` may lie behind the block, where no slice begins.
fn first_unerased(erased: u8, b: &[u8], end: usize) -> usize
    ensures { result ≡ first_unerased erased b.now end }
{
    let at = past_eights(erased, b, end);
    for i in at..b.len() {
        if b[i] != erased {
            return i;
        }
    }
    at.max(b.len())
}

// "bit 31 of the end tag clear for 0xff, set for 0x00"
fn validity_fits(erased: u8, etag: u32) -> bool
    ensures { result ≡ validity_fits erased etag }
{
    let clear = tag::lfs_tag_isvalid(etag);
    if erased == 0x00 {
        return !clear;
    }
    clear
}

// "Tell a misaligned end, an end tag with its top bit set, and a first byte that isn't erased apart, the last with its
// offset in the block. Test them in that order"; the second "is now 'wrong validity bit'".
// The bounds are those of a geometry that fits: `Geometry` is C's struct, and holds no proof of it.
pub fn room(erased: u8, prog: u32, b: &[u8], end: usize, etag: u32) -> Result<(), Refusal>
    requires le_prog { 4 ≤ prog }
    requires b_len_bound { length b.now ≤ 32_768 }
    ensures { result ≡ room_of erased prog b.now end etag }
{
    let unit = prog as usize;
    if end % unit != 0 {
        return Err(Refusal::Misaligned);
    }
    if !validity_fits(erased, etag) {
        return Err(Refusal::WrongValidity);
    }
    let dirty = first_unerased(erased, b, end);
    if dirty < b.len() {
        return Err(Refusal::NotErased(dirty as u32));
    }
    Ok(())
}

// "put 1, 2 or 3 bytes of the check tag and fill its four" with erased bytes; if any of the three checksums is what
// four erased bytes are, refuse. `word` is the tag as it is stored, `sum` the checksum before it.
pub fn coincides(erased: u8, sum: u32, word: u32) -> bool
    ensures { result ≡ tag_coincides erased sum word }
{
    let tag = word::be_bytes(word);
    let one = [tag[0], erased, erased, erased];
    let two = [tag[0], tag[1], erased, erased];
    let three = [tag[0], tag[1], tag[2], erased];
    let four = (erased as u32) * 0x0101_0101;
    (crc::lfs_crc(sum, &one) == four)
        | (crc::lfs_crc(sum, &two) == four)
        | (crc::lfs_crc(sum, &three) == four)
}
