// The walk over one metadata block, from its revision to where it stops: what `lfs_dir_fetchmatch` learns of a block.
// The state goes in and comes back by value, stepped by its own operations. A function with a `requires` is for the
// crates of this repository, which test first.
#![tactic(auto)]

ghost use Rattle.std.specs.Prelude.{◌≡◌, ◌+◌, ◌≤◌, length};
ghost use Rattle.format.specs.Word.{to_le32};
ghost use Rattle.format.specs.Crc.{crc};
ghost use Rattle.format.specs.Walk.{read_behind};
ghost use Rattle.fetch_walk.specs.Block.{walked_of, walked_again};
ghost use Rattle.fetch_walk.specs.State.{begun, holding, taking, leaves};

pub mod cursor;
pub mod dir;

use cursor::{Cursor, Seen};
use dir::DirState;
use format::types::{CRC_START, FIRST_PREV};

// What the last commit took: "count, tail, split, end and end tag", and the seed. An end of 4: there is no commit.
// No Option of it: the definition `walked_of` says what each field is without a commit too.
#[derive(Clone, Copy)]
pub struct Taken {
    pub dir: DirState,
    pub off: usize,
    pub etag: u32,
    pub seed: u32,
}

// The state of the walk: what the entries say so far, and what the last commit took.
#[derive(Clone, Copy)]
pub struct WalkState {
    pub dir: DirState,
    pub taken: Taken,
}

impl WalkState {
    // Nothing is read, and nothing is taken.
    pub fn begin(seed: u32) -> Self
        ensures { result ≡ begun seed }
    {
        let dir = DirState::empty();
        let taken = Taken {
            dir,
            off: 4,
            etag: FIRST_PREV,
            seed,
        };
        WalkState { dir, taken }
    }

    // An entry, what is read behind its tag standing at `at`.
    pub fn entry(mut self, b: &[u8], tag: u32, at: usize) -> Self
        requires { at + read_behind tag ≤ length b.now }
        ensures { result ≡ holding b.now tag at self }
    {
        let before = self.dir;
        self.dir = before.entry(b, tag, at);
        self
    }

    // A commit check that fits, with its checksum and the cursor behind it. The directory goes on as it is: a forward
    // check counts in later commits too.
    pub fn commit(mut self, sum: u32, c: Cursor) -> Self
        ensures { result ≡ taking sum c self }
    {
        let dir = self.dir;
        let taken = Taken {
            dir,
            off: c.at,
            etag: c.prev,
            seed: crc_word(self.taken.seed, sum),
        };
        self.taken = taken;
        self
    }
}

// A word's four bytes, taken by a checksum: "the seed takes the checksum's four bytes", and a block's first commit
// begins with its revision.
pub fn crc_word(seed: u32, sum: u32) -> u32
    ensures { result ≡ crc seed (to_le32 sum) }
{
    let bytes = word::le_bytes(sum);
    crc::lfs_crc(seed, &bytes)
}

// What a walk leaves; straight: it stopped on an invalid tag straight after a commit. There is as much to take where it
// did not, so it is no Option.
#[derive(Clone, Copy)]
pub struct Walked {
    pub taken: Taken,
    pub straight: bool,
}

// The walk over a block from its start.
pub fn walk_block(b: &[u8], seed: u32) -> Walked
    requires { 4 ≤ length b.now }
    ensures { result ≡ walked_of b.now seed }
{
    walk_on(b, Cursor::start(b), WalkState::begin(seed))
}

// The walk that goes on where another ended: what that one took is known, and "the checksum restarts" behind its check.
pub fn walk_again(b: &[u8], known: Taken) -> Walked
    ensures { result ≡ walked_again b.now known }
{
    let from = Cursor {
        at: known.off,
        prev: known.etag,
        sum: CRC_START,
    };
    let dir = known.dir;
    walk_on(b, from, WalkState { dir, taken: known })
}

// The walk from a cursor and a state. No iterator: the kind of the tag that it stops at is answered too.
fn walk_on(b: &[u8], from: Cursor, state: WalkState) -> Walked
    ensures { result ≡ leaves b.now state from }
{
    let mut c = from;
    let mut w = state;
    loop {
        match c.next(b) {
            Seen::Entry(tag, behind) => {
                w = w.entry(b, tag, c.at + 4);
                c = behind;
            }
            Seen::Check(sum, behind) => {
                w = w.commit(sum, behind);
                c = behind;
            }
            Seen::Invalid => {
                let taken = w.taken;
                let straight = cursor::is_check(c.prev);
                return Walked { taken, straight };
            }
            Seen::Past => {
                let taken = w.taken;
                return Walked {
                    taken,
                    straight: false,
                };
            }
        }
    }
}
