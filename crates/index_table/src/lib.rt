// The places of an index, as document 02, L8 has them: two words each, an entry's tag with the slot's present id and
// the offset of its first data byte, sorted by id and in a slot by class. A place is found by halving; what an entry of
// a log does to the places moves those behind it, and none where it comes at the end. The functions take any words;
// they are for the crates of this repository.
#![tactic(auto)]

ghost use Rattle.std.specs.Prelude.{◌≡◌, ◌-◌, ◌*◌, ◌/◌, ◌^◌, ◌<◌, ◌≤◌, [], ◌∷◌, ◌++◌, length, take, drop, replicate};
ghost use Rattle.format.specs.Index.{rank_at, rank_of, seek_from, shifted, leading, slot_made, slot_removed, place_set};
ghost use Rattle.format.specs.Index.{place_cleared, is_at};

use format::Refusal;

// one id more, in a tag
const ONE_UP: u32 = 0x400;

// one id less: a sum that wraps
const ONE_DOWN: u32 = 0xffff_fc00;

// ---- words

// Each place's id is higher by `by`, counted in a tag's ids. By number: of words that are lent in pairs, as
// chunks_exact_mut does it, a proof knows afterwards only how many they are.
fn shift_ids(part: &mut [u32], by: u32)
    ensures { part.new ≡ shifted by part.old }
{
    for i in 0..part.len() / 2 {
        part[2 * i] = part[2 * i].wrapping_add(by);
    }
}

// The first place is this one.
fn put(part: &mut [u32], tag: u32, off: u32)
    requires { 2 ≤ length part.old }
    ensures { part.new ≡ tag ∷ off ∷ drop 2 part.old }
{
    part[0] = tag;
    part[1] = off;
}

// A place comes in at the front, and the last one is lost.
fn open(part: &mut [u32], tag: u32, off: u32)
    requires { 2 ≤ length part.old }
    ensures { part.new ≡ tag ∷ off ∷ take (length part.old - 2) part.old }
{
    let left = part.len() - 2;
    part.copy_within(..left, 2);
    put(part, tag, off);
}

// The first n words are taken out, and zeros come in at the end.
fn close(part: &mut [u32], n: usize)
    requires { n ≤ length part.old }
    ensures { part.new ≡ drop n part.old ++ replicate n 0 }
{
    let left = part.len() - n;
    part.copy_within(n.., 0);
    part[left..].fill(0);
}

// ---- finding a place

// The order of places: by id, and in a slot by class.
pub fn rank_at(id: u32, class: usize) -> u32
    requires { (id ≤ 1_024) × (class ≤ 258) }
    ensures { result ≡ rank_at id class }
{
    id * 512 + class as u32
}

// A tag of zero is no place's, and stands behind all.
#[tactic(auto, unfolding(format::specs::Index::rank_of))]
pub fn rank_of(tag: u32) -> u32
    ensures { result ≡ rank_of tag }
{
    if tag == 0 {
        return 0x10_0000;
    }
    let class = compact_slot::class_of(tag).unwrap_or(compact_slot::CLASSES);
    rank_at(tag::lfs_tag_id(tag) as u32, class)
}

// The first place, from the place `from` on, that is not before the rank; or the one behind the last. Halved by hand:
// the answer is promised of any words, in order or not, and partition_point promises none of words out of order.
pub fn seek(places: &[u32], rank: u32, from: usize) -> usize
    requires { from ≤ length places.now / 2 }
    ensures { (result ≡ seek_from rank places.now from) × (from ≤ result)
        × (result ≤ length places.now / 2) }
{
    let mut at = from;
    let mut left = places.len() / 2 - from;
    while 0 < left {
        let half = left / 2;
        let mid = at + half;
        if rank_of(places[2 * mid]) < rank {
            at = mid + 1;
            left = left - half - 1;
        } else {
            left = half;
        }
    }
    at
}

// How many places stand before the first that is zero.
fn count(table: &[u32]) -> usize
    ensures result_value { 2 * result ≡ length (leading table.now) }
    ensures table_value { take (2 * result) table.now ≡ leading table.now }
{
    let (places, _) = table.as_chunks::<2>();
    places
        .iter()
        .position(|place| place[0] == 0)
        .unwrap_or(places.len())
}

// ---- what an entry does to a table

// A lent table, of which the first `used` places are in use.
#[derive(Drop)]
pub struct Places<'a> {
    table: &'a mut [u32],
    used: usize,
    ghost inside: { 2 * used ≤ length table.now },
}

impl<'a> Places<'a> {
    ghost use Rattle.index_table.specs.Held.{used_of, in_use, Takes, Keeps, Goes};

    // A table is cleared: no place of it is in use.
    pub fn cleared(table: &'a mut [u32]) -> Places<'a>
        ensures { Takes result table.entry [] }
    {
        table.fill(0);
        Places { table, used: 0 }
    }

    // Any table, as one whose places in use are those before the first that is zero: behind them all is zero.
    pub fn trimmed(table: &'a mut [u32]) -> Places<'a>
        ensures { Takes result table.entry (leading table.old) }
    {
        let used = count(table);
        table[2 * used..].fill(0);
        Places { table, used }
    }

    // How many places are in use.
    pub fn used(&self) -> usize
        ensures { result ≡ used_of self.now }
    {
        self.used
    }

    // All places go.
    pub fn clear(&mut self)
        ensures { Keeps self.old self.new (λ P. []) }
    {
        self.table.fill(0);
        self.used = 0;
    }

    // A rank's place, from the place `from` on, or where it would stand.
    fn find(&self, rank: u32, from: usize) -> usize
        requires { from ≤ self.now.used }
        ensures { (result ≡ seek_from rank (in_use self.now) from)
            × (from ≤ result) × (result ≤ self.now.used) }
    {
        seek(&self.table[..2 * self.used], rank, from)
    }

    // Whether the place `at` of those in use has the rank.
    fn is_at(&self, at: usize, rank: u32) -> bool
        ensures { result ≡ is_at rank (in_use self.now) at }
    {
        at < self.used && rank_of(self.table[2 * at]) == rank
    }

    // A slot is made: the places from it on get the next id.
    pub fn make(&mut self, id: u32)
        requires { id < 2 ^ 10 }
        ensures { Keeps self.old self.new (slot_made id) }
    {
        let at = 2 * self.find(rank_at(id, 0), 0);
        shift_ids(&mut self.table[at..2 * self.used], ONE_UP);
    }

    // A slot is removed: its own places go, and those behind them get the id before.
    pub fn remove(&mut self, id: u32)
        requires { id < 2 ^ 10 }
        ensures { Keeps self.old self.new (slot_removed id) }
    {
        let first = self.find(rank_at(id, 0), 0);
        let last = self.find(rank_at(id + 1, 0), first);
        let gone = last - first;
        let at = 2 * first;
        close(&mut self.table[at..2 * self.used], 2 * gone);
        self.used -= gone;
        shift_ids(&mut self.table[at..2 * self.used], ONE_DOWN);
    }

    // What is set stands in its place, or in a new one.
    pub fn set(&mut self, rank: u32, tag: u32, off: u32) -> Result<(), Refusal>
        ensures { Goes self.old self.new result (place_set rank tag off) }
    {
        let place = self.find(rank, 0);
        let at = 2 * place;
        let end = 2 * self.used;
        if self.is_at(place, rank) {
            put(&mut self.table[at..end], tag, off);
            return Ok(());
        }
        if self.table.len() - end < 2 {
            return Err(Refusal::TableFull);
        }
        open(&mut self.table[at..end + 2], tag, off);
        self.used += 1;
        Ok(())
    }

    // What is removed leaves no place.
    pub fn unset(&mut self, rank: u32)
        ensures { Keeps self.old self.new (place_cleared rank) }
    {
        let place = self.find(rank, 0);
        if self.is_at(place, rank) {
            close(&mut self.table[2 * place..2 * self.used], 2);
            self.used -= 1;
        }
    }
}
