// One pair of a tree (document 02, L9): opened, the entries of its slots, and a line of the walk's text. The functions
// ask that the block was fetched from and its log is regular, and are for the crates of this repository.
#![tactic(auto)]

ghost use Rattle.std.specs.Prelude.{◌≡◌, length};
ghost use Rattle.format.specs.Look.{FoundIn};
ghost use Rattle.format.specs.Tree.{open_in, line_text};
ghost use Rattle.format.specs.TreeMachine.{hidden};
ghost use Rattle.format.specs.Tag.{tag_type3};
ghost use Rattle.text.specs.Put.{Puts};
ghost use Rattle.tree_theory.specs.OnBlock.{named_hit, slot_at};
ghost use Rattle.tree_pair.specs.Pair.{Opens, Slotted, NameSeen, node_at, EntryIs, load_at, line_of, EntryIn};
ghost use Rattle.tree_pair.specs.Pair.{entry_text};

use format::types::*;
use format::{Found, LfsPair, Refusal, Rules};
use text::Text;
use volume::Volume;

// A pair that was opened: its block that answers, where the log ends, how many slots it has, and its hard tail, if it
// has one.
#[derive(Clone, Copy)]
pub struct Dir {
    pub block: u32,
    pub end: u32,
    pub etag: u32,
    pub count: u32,
    pub tail: Option<LfsPair>,
}

// The entry of a slot: its name, and a file's size or the pair that a directory begins at.
#[derive(Clone, Copy)]
pub enum Entry {
    File(Found, u32),
    Dir(Found, LfsPair),
}

// A name or a struct, whatever its kind, of one slot.
const NEWEST: u32 = 0x700f_fc00;

// A name as `lfs_dir_getinfo` looks for it.
const SEEN: u32 = 0x780f_fc00;

// "the fetch's own, -202": what stands at a pair.
pub fn open_in(vol: Volume, rules: Rules, pair: LfsPair) -> Result<Dir, Refusal>
    ensures { Opens vol.entry.g vol.entry.bytes.now (open_in rules vol.entry.g vol.entry.bytes.now pair) result }
{
    let m = vol.fetch(pair)?.dir;
    let b = vol.block(m.pair.n0);
    if !commit_regular::log_regular(b, m.off as usize, rules) {
        return Err(Refusal::Irregular);
    }
    Ok(Dir {
        block: m.pair.n0,
        end: m.off,
        etag: m.etag,
        count: m.count as u32,
        tail: m.split.then_some(m.tail),
    })
}

// Whether `lfs_dir_getinfo` passes over a name of this tag's type: its mask keeps 0x780.
fn is_hidden(tag: u32) -> bool
    ensures { result ≡ hidden (tag_type3 tag) }
{
    let kind = tag::lfs_tag_type3(tag);
    (0x080 <= kind) & (kind < 0x100)
}

// The newest name of a slot, if `lfs_dir_getinfo` sees one. It sees a newest name that is not hidden; under a hidden
// one there may be another, which only a second search tells.
fn name_seen(b: &[u8], end: u32, etag: u32, id: u32) -> Option<Found>
    requires { Slotted b.now end etag id }
    ensures { NameSeen b.now (named_hit b.now end etag id) (slot_at b.now id 0)
        result }
{
    let key = tag::lfs_mktag(LFS_TYPE_NAME as u32, id, 256);
    let name = lookup_search::find_back(b, end, etag, NEWEST, key, 0)?;
    if is_hidden(name.tag) {
        lookup_search::find_back(b, end, etag, SEEN, key, 0)?;
    }
    Some(name)
}

// The entry of a slot, from its name and its struct: a directory by its struct, "two block numbers, little-endian",
// whatever the name's type. Nothing where `lfs_dir_getinfo` answers -2.
pub fn entry_of(b: &[u8], end: u32, etag: u32, id: u32) -> Option<Entry>
    requires { Slotted b.now end etag id }
    ensures { EntryIs b.now (node_at b.now end etag id) result }
{
    let name = name_seen(b, end, etag, id)?;
    let key = tag::lfs_mktag(LFS_TYPE_STRUCT as u32, id, 8);
    let content = lookup_search::find_back(b, end, etag, NEWEST, key, 0)?;
    let mut s = [0u8; 8];
    let _ = lookup_search::slice::read_at(b, content, 0, &mut s);
    if tag::lfs_tag_type3(content.tag) == LFS_TYPE_DIRSTRUCT {
        return Some(Entry::Dir(
            name,
            LfsPair {
                n0: word::within::le32(&s, 0),
                n1: word::within::le32(&s, 4),
            },
        ));
    }
    Some(Entry::File(name, lookup::info::size_of(content.tag, &s)))
}

// A line: "depth, type, name as the listing prints it, and `lfs_dir_getinfo`'s size". It shows no pair.
#[tactic(auto, unfolding(format::specs::Tree::line_text, theory::specs::Lookup::ByMask::holds, text::specs::Put::puts_of), using(text::proofs::Joined::puts_append))]
fn line(text: &mut Text, b: &[u8], depth: u32, name: Found, size: u32)
    requires { FoundIn (length b.now) name }
    ensures { Puts text.old text.new (line_text (line_of depth (load_at b.now name) size)) }
{
    text.decimal(depth);
    text_listing::name_fields(text, b, Some(name));
    text.number_line(b" ", size);
}

// The line of an entry. A directory's size is 0.
#[tactic(auto, unfolding(text::specs::Put::puts_of))]
pub fn entry_line(text: &mut Text, b: &[u8], depth: u32, entry: Entry)
    requires { EntryIn (length b.now) entry }
    ensures { Puts text.old text.new (entry_text b.now depth entry) }
{
    match entry {
        Entry::File(name, size) => line(text, b, depth, name, size),
        Entry::Dir(name, _) => line(text, b, depth, name, 0),
    }
}
