// Compaction's entries, in order: "for each id create, newest name .., struct .., user attributes by rising type; then
// tail ..; then move state", and the forward check behind them. Each is laid into the new block by as many single
// stores as may still be made, and summed; with none left to make, this measures what would be written and alters
// nothing.
#![tactic(auto)]

ghost use Rattle.std.specs.Prelude.{◌≡◌, option_copied, cond, ◌∷◌, ◌++◌, ◌+◌, ◌^◌, ◌<◌, length, drop};
ghost use Rattle.format.specs.Log.{log};
ghost use Rattle.format.specs.Word.{xor, to_be32, to_le32};
ghost use Rattle.format.specs.Kind.{type_tail, type_hard_tail};
ghost use Rattle.format.specs.Crc.{crc};
ghost use Rattle.format.specs.Directory.{classes, dir_of};
ghost use Rattle.format.specs.Look.{HitIn};
ghost use Rattle.format.specs.Writer.{forward_items, with_forward};
ghost use Rattle.format.specs.Compaction.{slot_items, dir_items, tail_items, compaction_items};
ghost use Rattle.commit_lay.specs.Laid.{laid, puts_of, body_of};
ghost use Rattle.compact_slot.specs.Slots.{slot_in};
ghost use Rattle.compact_entries.specs.Emitted.{standing, emitted, emits, create_item, hit_items, SlotSeated};
ghost use Rattle.compact_entries.specs.Emitted.{Source, Read, Renewing};
ghost use Rattle.compact_entries.specs.Placed.{SlotPlaced, Placed, Indexes};
ghost use Rattle.index_theory.specs.Items.{place_items};
ghost use Rattle.index_theory.specs.Owned.{own_places};

use commit_lay::Run;
use format::types::*;
use format::{Found, LfsFcrc, LfsMdir, LfsPair};

// Where the writing stands: the stores, the end of what is written, the previous tag and the checksum. That the end is
// below 2^32 is asked at each step and no invariant: the end that a step leaves may be above it.
#[derive(Clone, Copy)]
pub struct Emit {
    pub run: Run,
    pub end: usize,
    pub prev: u32,
    pub sum: u32,
}

// A slot that was written from places: where the writing stands, and the first word behind them.
#[derive(Clone, Copy)]
struct Part {
    emit: Emit,
    at: usize,
}

// One entry: its tag, chained to the previous one, and its data, a part of `dat`.
fn entry(new: &mut [u8], e: Emit, tag: u32, dat: &[u8], off: u32, len: u32) -> Emit
    requires { e.end < 2 ^ 32 }
    ensures { standing result new.new ≡ emitted (standing e new.old)
        (record { tag = tag; body = body_of dat.now off len }) }
{
    let word = tag ^ e.prev;
    let run = commit_lay::put_entry(new, e.run, word, dat, off, len);
    Emit {
        run,
        end: e.end + tag::lfs_tag_dsize(tag) as usize,
        prev: tag,
        sum: commit_lay::sum_entry(e.sum, word, dat, off, len),
    }
}

// An entry that was found, with the tag that it was found with; or nothing.
// That it is inside is asked of each found entry: `Found` is C's struct, and holds no block.
fn found_entry(old: &[u8], new: &mut [u8], e: Emit, h: Option<Found>) -> Emit
    requires { (e.end < 2 ^ 32) × HitIn (length old.now) h }
    ensures { standing result new.new ≡ emits (standing e new.old)
        (hit_items old.now h) }
{
    match h {
        None => e,
        Some(f) => entry(new, e, f.tag, old, f.off, f.length - 4),
    }
}

// A slot's create.
fn create(old: &[u8], new: &mut [u8], e: Emit, id: u32) -> Emit
    requires { (e.end < 2 ^ 32) × (id < 2 ^ 10) }
    ensures { standing result new.new ≡ emitted (standing e new.old) (create_item id) }
{
    let tag = tag::lfs_mktag(LFS_TYPE_CREATE as u32, id, 0);
    entry(new, e, tag, old, 0, 0)
}

// A slot: its create, and what stands at its seats, by rising class.
fn slot(old: &[u8], new: &mut [u8], e: Emit, id: u32, seats: &[u32; 516]) -> Emit
    requires { SlotSeated old.now e id seats.now }
    ensures { standing result new.new ≡ emits (standing e new.old)
        (create_item id ∷ slot_items classes 0 id (slot_in old.now seats.now)) }
{
    let mut w = create(old, new, e, id);
    for class in 0..compact_slot::CLASSES {
        w = found_entry(old, new, w, compact_slot::found(seats, class));
    }
    w
}

// All slots of the log that ends at `end` with the tag `etag`, by a walk back for each.
fn slots(old: &[u8], new: &mut [u8], e: Emit, end: usize, etag: u32, count: u32) -> Emit
    requires { Source old.now e end etag count }
    ensures { standing result new.new ≡ emits (standing e new.old)
        (dir_items 0 (dir_of (log old.now))) }
{
    let mut seats = [0u32; 516];
    let mut w = e;
    for id in 0..count {
        compact_slot::gather_into(old, end, etag, id, &mut seats);
        w = slot(old, new, w, id, &seats);
    }
    w
}

// A slot from the places of an index, from the word `from` on: its create, and the entries whose places have its id.
// How many those are is answered, so this counts; two words a place are the table of C.
fn placed_slot(old: &[u8], new: &mut [u8], e: Emit, id: u32, places: &[u32], from: usize) -> Part
    requires { SlotPlaced old.now e id places.now from }
    ensures after { standing result.emit new.new ≡ emits (standing e new.old) (create_item id
        ∷ place_items old.now (own_places id (drop from places.now))) }
    ensures at_value { result.at ≡ from + length (own_places id (drop from places.now)) }
{
    let mut w = create(old, new, e, id);
    let mut at = from;
    while 1 < places.len() - at {
        let tag = places[at];
        if tag::lfs_tag_id(tag) as u32 != id {
            return Part { emit: w, at };
        }
        let f = Found {
            tag,
            length: tag::lfs_tag_dsize(tag),
            off: places[at + 1],
        };
        w = found_entry(old, new, w, Some(f));
        at += 2;
    }
    Part { emit: w, at }
}

// All slots of a log that has `count` of them and these places.
fn placed_slots(old: &[u8], new: &mut [u8], e: Emit, count: u32, places: &[u32]) -> Emit
    requires { Placed old.now e count places.now }
    ensures { standing result new.new ≡ emits (standing e new.old)
        (dir_items 0 (dir_of (log old.now))) }
{
    let mut w = e;
    let mut at = 0;
    for id in 0..count {
        let part = placed_slot(old, new, w, id, places, at);
        w = part.emit;
        at = part.at;
    }
    w
}

// All slots, from the log's places where it is indexed. What is asked of the places is asked beside them, since it is
// of the block too, which both passes hold already.
fn all_slots(
    old: &[u8],
    new: &mut [u8],
    e: Emit,
    end: usize,
    etag: u32,
    count: u32,
    places: Option<&[u32]>,
) -> Emit
    requires { Source old.now e end etag count × Indexes old.now (option_copied places) }
    ensures { standing result new.new ≡ emits (standing e new.old)
        (dir_items 0 (dir_of (log old.now))) }
{
    match places {
        Some(places) => placed_slots(old, new, e, count, places),
        None => slots(old, new, e, end, etag, count),
    }
}

// "tail 0x600 soft, 0x601 hard"
fn tail_type(split: bool) -> u16
    ensures { result ≡ cond split type_hard_tail type_tail }
{
    if split {
        LFS_TYPE_HARDTAIL
    } else {
        LFS_TYPE_SOFTTAIL
    }
}

// "then tail unless it is soft and both 0xffffffff"
// The flag and the pair apart, as C's record has them: a soft tail has a pair as well, so it is no Option.
fn tail(new: &mut [u8], e: Emit, split: bool, pair: LfsPair) -> Emit
    requires { e.end < 2 ^ 32 }
    ensures { standing result new.new ≡ emits (standing e new.old) (tail_items split pair) }
{
    let n0 = pair.n0;
    let n1 = pair.n1;
    if !split & (n0 == LFS_BLOCK_NULL) & (n1 == LFS_BLOCK_NULL) {
        return e;
    }
    let dat = word::le_pair(n0, n1);
    entry(
        new,
        e,
        tag::lfs_mktag(tail_type(split) as u32, NO_SLOT, 8),
        &dat,
        0,
        8,
    )
}

// All that the block `old` holds, whose record is `dir`, and whose places are `places` where it is indexed.
fn held(old: &[u8], new: &mut [u8], e: Emit, dir: LfsMdir, places: Option<&[u32]>) -> Emit
    requires { Read old.now e dir × Indexes old.now (option_copied places) }
    ensures { standing result new.new ≡ emits (standing e new.old)
        (compaction_items (log old.now)) }
{
    let end = dir.off as usize;
    let etag = dir.etag;
    let pair = dir.tail;
    let count = dir.count as u32;
    let w = all_slots(old, new, e, end, etag, count, places);
    let w = tail(new, w, dir.split, pair);
    // as lfs_dir_getgstate looks it up: no id, so that no pending move matters
    let gmask = tag::lfs_mktag(TYPE3_MASK, 0, 0);
    let gtag = tag::lfs_mktag(LFS_TYPE_MOVESTATE as u32, 0, 12);
    let h = lookup_search::find_back(old, dir.off, etag, gmask, gtag, 0);
    found_entry(old, new, w, h)
}

// The forward check, if it is carried.
// As lay_forward of commit_steps, but over `Emit`, which counts its end also where nothing is stored.
fn forward(new: &mut [u8], e: Emit, fcrc: LfsFcrc) -> Emit
    requires { e.end < 2 ^ 32 }
    ensures { standing result new.new ≡ emits (standing e new.old) (forward_items fcrc) }
{
    if !fcrc.seen {
        return e;
    }
    let dat = word::le_pair(fcrc.size, fcrc.sum);
    entry(new, e, commit_room::LFS_FORWARD_TAG, &dat, 0, 8)
}

// All entries of the compaction of the block `old`, and the forward check behind them. The slots come from the log's
// places, where there are some, else by a walk back for each: the same entries either way.
pub fn entries(
    erased: u8,
    prog: u32,
    old: &[u8],
    new: &mut [u8],
    e: Emit,
    dir: LfsMdir,
    places: Option<&[u32]>,
) -> Emit
    requires { Renewing prog old.now e dir × Indexes old.now (option_copied places) }
    ensures { standing result new.new ≡ emits (standing e new.old)
        (with_forward erased prog (length old.now) 4 (compaction_items (log old.now))) }
{
    let w = held(old, new, e, dir, places);
    let fcrc = commit_room::forward(erased, prog, old.len(), w.end);
    forward(new, w, fcrc)
}

// The check behind them: its tag, and the checksum with it.
pub fn check(new: &mut [u8], e: Emit, tag: u32) -> Run
    ensures { laid result new.new ≡ puts_of (laid e.run new.old)
        (to_be32 (xor tag e.prev) ++ to_le32 (crc e.sum (to_be32 (xor tag e.prev)))) }
{
    let word = tag ^ e.prev;
    let run = commit_lay::put_be32(new, e.run, word);
    commit_lay::put_le32(new, run, commit_lay::sum_be32(e.sum, word))
}
