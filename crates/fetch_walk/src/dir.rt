// What the entries read so far say of the directory: a record by value, stepped by its own operations, one for each
// kind of entry.
ghost use Rattle.std.specs.Prelude.{◌≡◌, ◌+◌, ◌≤◌, length, drop};
ghost use Rattle.format.specs.Tag.{tag_splice};
ghost use Rattle.format.specs.Count.{count_spliced};
ghost use Rattle.format.specs.Walk.{read_behind};
ghost use Rattle.fetch_walk.specs.Dir.{empty_dir, named, spliced, tailed, forwarded, entered};

use format::types::*;
use format::{LfsFcrc, LfsPair};

// What the record takes from the entries, in the record's own fields.
#[derive(Clone, Copy)]
pub struct DirState {
    pub count: u16,
    pub split: bool,
    pub tail: LfsPair,
    pub fcrc: LfsFcrc,
}

impl DirState {
    // "Tail begins as two 0xffffffff."
    pub fn empty() -> Self
        ensures { result ≡ empty_dir }
    {
        DirState {
            count: 0,
            split: false,
            tail: LfsPair {
                n0: LFS_BLOCK_NULL,
                n1: LFS_BLOCK_NULL,
            },
            fcrc: LfsFcrc {
                seen: false,
                size: 0,
                sum: 0,
            },
        }
    }

    // "Name: count becomes at least id + 1."
    #[tactic(auto, unfolding(crate::specs::Dir::named))]
    pub fn name(mut self, tag: u32) -> Self
        ensures { result ≡ named tag self }
    {
        let least = tag::lfs_tag_id(tag) + 1;
        self.count = self.count.max(least);
        self
    }

    // "Splice (type1 0x400): count plus splice"
    pub fn splice(mut self, tag: u32) -> Self
        ensures { result ≡ spliced tag self }
    {
        let count = self.count;
        self.count = splice_count(count, tag);
        self
    }

    // "Tail: split is chunk's low bit; 8 bytes are read, though the size be smaller." They stand at `at`.
    pub fn tail(mut self, b: &[u8], tag: u32, at: usize) -> Self
        requires { at + 8 ≤ length b.now }
        ensures { result ≡ tailed tag (drop at b.now) self }
    {
        let pair = LfsPair {
            n0: word::within::le32(b, at),
            n1: word::within::le32(b, at + 4),
        };
        self.split = tag::lfs_tag_chunk(tag) % 2 == 1;
        self.tail = pair;
        self
    }

    // "Forward check: 8 bytes likewise, length and checksum."
    pub fn forward(mut self, b: &[u8], at: usize) -> Self
        requires { at + 8 ≤ length b.now }
        ensures { result ≡ forwarded (drop at b.now) self }
    {
        let fcrc = LfsFcrc {
            seen: true,
            size: word::within::le32(b, at),
            sum: word::within::le32(b, at + 4),
        };
        self.fcrc = fcrc;
        self
    }

    // Any entry. Names, splices and tails go by type1, the forward check is exactly 0x5ff; the others say nothing of
    // the directory.
    pub fn entry(self, b: &[u8], tag: u32, at: usize) -> Self
        requires { at + read_behind tag ≤ length b.now }
        ensures { result ≡ entered tag (drop at b.now) self }
    {
        let type1 = tag::lfs_tag_type1(tag);
        if type1 == LFS_TYPE_NAME {
            return self.name(tag);
        }
        if type1 == LFS_TYPE_SPLICE {
            return self.splice(tag);
        }
        if type1 == LFS_TYPE_TAIL {
            return self.tail(b, tag, at);
        }
        if tag::lfs_tag_type3(tag) == LFS_TYPE_FCRC {
            return self.forward(b, at);
        }
        self
    }
}

// "count plus splice, raised to 0 if below, then modulo 65,536."
fn splice_count(count: u16, tag: u32) -> u16
    ensures { result ≡ count_spliced count (tag_splice tag) }
{
    let n = count as u32 + tag::splice_from_lowest(tag);
    (n.saturating_sub(128) % 65_536) as u16
}
