// What a slot holds, gathered in one walk back over a block's committed log: where the newest name, the newest struct
// and the newest of each user attribute stand. A lookup for each of the 258 classes would walk as often. The functions
// require that the end is inside the block, and are for the crates of this repository.
#![tactic(auto)]

ghost use Rattle.std.specs.Prelude.{◌≡◌, map, ◌+◌, ◌^◌, ◌<◌, MatchOption};
ghost use Rattle.format.specs.Back.{back};
ghost use Rattle.theory.specs.Back.BackActs.{seen};
ghost use Rattle.format.specs.Directory.{classes, seat_class};
ghost use Rattle.compact_slot.specs.Seat.{hit_at, created_at, id_before, noted, Gatherable, Gathered};

use format::Found;
use format::types::*;

// A name, a struct, and 256 user attributes.
pub const CLASSES: usize = 258;

// What a class's seat tells: nothing where it is free, since no data begin at 0, and nothing of a removal.
pub fn found(seats: &[u32; 516], class: usize) -> Option<Found>
    requires { class < 258 }
    ensures { result ≡ hit_at seats.now class }
{
    let tag = seats[2 * class];
    let off = seats[2 * class + 1];
    if off == 0 {
        return None;
    }
    if tag::lfs_tag_isdelete(tag) {
        return None;
    }
    Some(Found {
        tag,
        length: tag::lfs_tag_dsize(tag),
        off,
    })
}

// The class of what an entry sets in its slot: 0 the name, 1 the struct, 2 + u the user attribute u.
#[tactic(auto, unfolding(format::specs::Directory::seat_class))]
pub fn class_of(tag: u32) -> Option<usize>
    ensures { MatchOption result (seat_class tag ≡ classes)
        (λ class. (class ≡ seat_class tag) × (class < classes)) }
{
    match tag::lfs_tag_type1(tag) {
        LFS_TYPE_NAME => Some(0),
        LFS_TYPE_STRUCT => Some(1),
        LFS_TYPE_USERATTR => Some(2 + tag::lfs_tag_chunk(tag) as usize),
        _ => None,
    }
}

// Whether the tag creates the slot that has this id behind it: what is older belongs to other slots.
fn created(tag: u32, id: usize) -> bool
    ensures { result ≡ created_at tag id }
{
    (tag::lfs_tag_type3(tag) == LFS_TYPE_CREATE) & (tag::lfs_tag_id(tag) as usize == id)
}

// The id that the slot has before the tag: an older create below it counts it up, an older delete at or below it counts
// it down.
fn id_before(tag: u32, id: usize) -> usize
    requires { id < 2 ^ 32 }
    ensures { result ≡ id_before tag id }
{
    let type3 = tag::lfs_tag_type3(tag);
    let at = tag::lfs_tag_id(tag) as usize;
    if type3 == LFS_TYPE_CREATE {
        return if at < id { id - 1 } else { id };
    }
    if type3 == LFS_TYPE_DELETE {
        return if at <= id { id + 1 } else { id };
    }
    id
}

// An entry takes its class's seat, if it is the slot's and no newer one has it. The slot's id is `slot` at the entry
// and `id` now: the seat has the tag with that.
#[tactic(auto, unfolding(crate::specs::Seat::noted), using(crate::proofs::Leaves::named_lem))]
fn note(seats: &mut [u32; 516], tag: u32, at: usize, slot: usize, id: u32)
    requires { (at + 4 < 2 ^ 32) × (id < 2 ^ 10) }
    ensures { seats.new ≡ noted seats.old tag at slot id }
{
    if tag::lfs_tag_id(tag) as usize != slot {
        return;
    }
    let Some(class) = class_of(tag) else {
        return;
    };
    if seats[2 * class + 1] != 0 {
        return;
    }
    seats[2 * class] = tag::lfs_mktag(tag::lfs_tag_type3(tag) as u32, id, tag::lfs_tag_size(tag));
    seats[2 * class + 1] = (at + 4) as u32;
}

// The seats of the slot `id`, from the end of a log and the tag that ends there: two words for each class, the newest
// entry's tag with the id, and the offset of its first data byte. The array is lent, since a copy of it is most of what
// a compaction's stack holds; what stands in it before is not read. Words and no pairs, as a table of places has them:
// the definitions `hit_at` and `noted` are about these words.
pub fn gather_into(b: &[u8], end: usize, etag: u32, id: u32, seats: &mut [u32; 516])
    requires { Gatherable b.now end id }
    ensures { Gathered b.now (map (seen b.now) (back b.now end etag)) id
        seats.new }
{
    seats.fill(0);
    let mut slot = id as usize;
    for (at, tag) in lookup_back::Back::new(b, end, etag) {
        if created(tag, slot) {
            return;
        }
        note(seats, tag, at, slot, id);
        slot = id_before(tag, slot);
    }
}

// The same in an array of its own.
pub fn gather(b: &[u8], end: usize, etag: u32, id: u32) -> [u32; 516]
    requires { Gatherable b.now end id }
    ensures { Gathered b.now (map (seen b.now) (back b.now end etag)) id result }
{
    let mut seats = [0u32; 516];
    gather_into(b, end, etag, id, &mut seats);
    seats
}
