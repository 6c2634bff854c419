// The plain types that the calls share: what goes in and what is answered. They hold numbers and no reference, so each
// goes in and comes back by value. `specs/` says what they mean; `specs/Answer.antt` gives document 01's number and
// values for each answer.
#![tactic(auto)]

ghost use Rattle.std.specs.Prelude.{◌≡◌};
ghost use Rattle.format.specs.Answer.{refusal_number};
ghost use Rattle.format.specs.Regular.{rules_from};

pub mod types;

// "Block size 128 to 32,768; program size 4 to 512; block size a multiple of it." Any two numbers may be asked about.
#[repr(C)]
#[derive(Clone, Copy, Debug, PartialEq, Eq)]
pub struct Geometry {
    pub block_size: u32,
    pub prog_size: u32,
}

// Two block numbers: the Rust's `[lfs_block_t; 2]`, and in C a struct.
#[repr(C)]
#[derive(Clone, Copy, Debug, PartialEq, Eq)]
pub struct LfsPair {
    pub n0: u32,
    pub n1: u32,
}

// A forward check (the Rust's `LfsFcrc`): whether there is one, of how many bytes behind the log's end, and their
// checksum. All 0 where there is none. In C the record has them as its last three fields, which an Option has not.
#[repr(C)]
#[derive(Clone, Copy, Debug, PartialEq, Eq)]
pub struct LfsFcrc {
    pub seen: bool,
    pub size: u32,
    pub sum: u32,
}

// The record of a metadata pair, as fetch reads it: the answering block's number first, its revision, where its
// committed log ends and the tag there, the number of slots, whether the room behind passed its forward check (which
// does not say that it is empty), the tail (hard where `split`), and the last forward check that is committed. Its
// fields stand as C has them, so the two flags are flags.
#[repr(C)]
#[derive(Clone, Copy, Debug, PartialEq, Eq)]
pub struct LfsMdir {
    pub pair: LfsPair,
    pub rev: u32,
    pub off: u32,
    pub etag: u32,
    pub count: u16,
    pub erased: bool,
    pub split: bool,
    pub tail: LfsPair,
    pub fcrc: LfsFcrc,
}

// The global state: a tag and a pair.
#[repr(C)]
#[derive(Clone, Copy, Debug, PartialEq, Eq)]
pub struct LfsGstate {
    pub tag: u32,
    pub pair: LfsPair,
}

// What is shown of an entry: its type, its size, and its name, zeros behind it. A stored name of more than 255 bytes,
// read with 255 as the longest, fills all 256: it has no zero behind it.
#[derive(Clone, Copy, Debug, PartialEq, Eq)]
pub struct LfsInfo {
    pub kind: u8,
    pub size: u32,
    pub name: [u8; 256],
}

// One entry of a commit: "type, id, data offset, length".
#[repr(C)]
#[derive(Clone, Copy, Debug, PartialEq, Eq)]
pub struct Entry {
    pub kind: u16,
    pub id: u16,
    pub off: u32,
    pub len: u32,
}

// Which logs are regular: by document 01's rule alone, or by littlefs's too. littlefs's own compaction writes no
// creates: there the names alone make the slots.
#[derive(Clone, Copy, Debug, PartialEq, Eq)]
pub enum Rules {
    Document,
    Littlefs,
}

// Document 01's table of refusals: one case for each line of it, with what comes back; in the place of its -203 stand
// the three reasons of document 02, L1; and L8's and L9's.
#[derive(Clone, Copy, Debug, PartialEq, Eq)]
pub enum Refusal {
    // -22: a size or number is broken
    Invalid,
    // -84: nothing valid is there, or a read would pass the block
    Corrupt,
    // -2, lookup: no entry
    NoEntry,
    // -2, fetch: a count above 1,023; the record and the seed as read
    TooMany(Fetched),
    // -201: the index of the first bad entry
    BadEntry(u32),
    // -202: the committed log isn't regular
    Irregular,
    // -28: the rounded end passes the block
    NoSpace,
    // -211: the old end is no multiple of the program size
    Misaligned,
    // -212: the end tag has the wrong validity bit for the erased byte
    WrongValidity,
    // -213: the block offset of the first byte behind the end that isn't erased
    NotErased(u32),
    // -204: the checksum coincidence
    Coincidence,
    // -221: after some entry of the log more are live than the table has places
    TableFull,
    // -231: the allowance of pairs is spent
    Spent,
    // -232: a directory deeper than 32
    TooDeep,
}

impl Refusal {
    // Document 01's number of it.
    pub fn number(self) -> i32
        ensures { result ≡ refusal_number self }
    {
        match self {
            Refusal::Invalid => -22,
            Refusal::Corrupt => -84,
            Refusal::NoEntry => -2,
            Refusal::TooMany(_) => -2,
            Refusal::BadEntry(_) => -201,
            Refusal::Irregular => -202,
            Refusal::NoSpace => -28,
            Refusal::Misaligned => -211,
            Refusal::WrongValidity => -212,
            Refusal::NotErased(_) => -213,
            Refusal::Coincidence => -204,
            Refusal::TableFull => -221,
            Refusal::Spent => -231,
            Refusal::TooDeep => -232,
        }
    }
}

// The rule as a call takes it: 0 document 01's, 1 littlefs's, "any other -22".
impl TryFrom<u32> for Rules {
    type Error = Refusal;

    ghost try_from_gives = { λ n r. r ≡ rules_from n };

    fn try_from(rules: u32) -> Result<Self, Refusal> {
        match rules {
            0 => Ok(Rules::Document),
            1 => Ok(Rules::Littlefs),
            _ => Err(Refusal::Invalid),
        }
    }
}

// An entry that was found: its tag with the difference added, so with the id that it has now; its stored length, "4
// plus size" (a removal is never found); and the offset in the block of its first data byte.
#[repr(C)]
#[derive(Clone, Copy, Debug, PartialEq, Eq)]
pub struct Found {
    pub tag: u32,
    pub length: u32,
    pub off: u32,
}

// What fetch found: the record, and the seed behind it. A commit and a compaction answer the same of the finished pair.
#[derive(Clone, Copy, Debug, PartialEq, Eq)]
pub struct Fetched {
    pub dir: LfsMdir,
    pub seed: u32,
}

// A text in a lent buffer: whether it came to its end, and the length of all that came about, for which the buffer may
// have had no room.
#[derive(Clone, Copy, Debug, PartialEq, Eq)]
pub struct Written {
    pub answer: Result<(), Refusal>,
    pub length: u32,
}
