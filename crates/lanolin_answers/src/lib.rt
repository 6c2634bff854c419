// Answers as C gets them: document 01's numbers, and structs of plain fields.
#![tactic(auto)]

ghost use Rattle.std.specs.Prelude.{◌≡◌, min};
ghost use Rattle.format.specs.Answer.{flag_of, refusal_mdir, refusal_seed, refusal_index, result_number};
ghost use Rattle.format.specs.Answer.{zero_mdir};
ghost use Rattle.format.specs.Word.{all_ones};
ghost use Rattle.lanolin_answers.specs.Values.{word_out, got_out, fetched_out, info_out, committed_out, stored_out};
ghost use Rattle.lanolin_answers.specs.Values.{named_out, indexed_out, text_out};

use format::{Fetched, Found, LfsFcrc, LfsInfo, LfsMdir, LfsPair, Refusal, Written};

// A result and the value that comes with it, 0 on a refusal.
#[repr(C)]
#[derive(Clone, Copy)]
pub struct Value {
    pub result: i32,
    pub value: u32,
}

// What lanolin_getslice and lanolin_get answer: C has the entry's three words right behind the result. All 0 on a
// refusal.
#[repr(C)]
#[derive(Clone, Copy)]
pub struct GotOut {
    pub result: i32,
    pub found: Found,
}

// What lanolin_fetch answers.
#[repr(C)]
#[derive(Clone, Copy)]
pub struct FetchedOut {
    pub result: i32,
    pub dir: LfsMdir,
    pub seed: u32,
}

// What lanolin_getinfo answers.
#[repr(C)]
#[derive(Clone, Copy)]
pub struct InfoOut {
    pub result: i32,
    pub kind: u8,
    pub size: u32,
    pub name: [u8; 256],
}

// What lanolin_commit and lanolin_compact answer. `index` is that of -201's entry, the block offset of -213's byte,
// else 0.
#[repr(C)]
#[derive(Clone, Copy)]
pub struct CommittedOut {
    pub result: i32,
    pub index: u32,
    pub dir: LfsMdir,
    pub seed: u32,
}

// What the same calls with a limit answer.
#[repr(C)]
#[derive(Clone, Copy)]
pub struct StoredOut {
    pub result: i32,
    pub index: u32,
    pub stores: u32,
}

// What lanolin_find answers: whether a slot has the name, and the lowest id that has. None: 0, false, 0.
#[repr(C)]
#[derive(Clone, Copy)]
pub struct NamedOut {
    pub result: i32,
    pub found: bool,
    pub id: u32,
}

// What lanolin_index and lanolin_index_extend answer: the places in use, 0 on a refusal.
#[repr(C)]
#[derive(Clone, Copy)]
pub struct IndexedOut {
    pub result: i32,
    pub places: u32,
}

// What a call answers that writes a text: the length of the whole text, beside a refusal too.
#[repr(C)]
#[derive(Clone, Copy)]
pub struct TextOut {
    pub result: i32,
    pub length: u32,
}

// Tests answer exactly 0 or 1.
pub fn flag(b: bool) -> u32
    ensures { result ≡ flag_of b }
{
    if b { 1 } else { 0 }
}

// The number of an answer that comes with no value: no `From`, since neither type is of this crate.
pub fn altered_out(a: Result<(), Refusal>) -> i32
    ensures { result ≡ result_number a }
{
    match a {
        Ok(()) => 0,
        Err(r) => r.number(),
    }
}

impl From<Result<u32, Refusal>> for Value {
    ghost from_gives = { λ w v. v ≡ word_out w };

    fn from(w: Result<u32, Refusal>) -> Value {
        match w {
            Ok(v) => Value {
                result: 0,
                value: v,
            },
            Err(r) => Value {
                result: r.number(),
                value: 0,
            },
        }
    }
}

impl From<Result<Found, Refusal>> for GotOut {
    ghost from_gives = { λ g o. o ≡ got_out g };

    fn from(g: Result<Found, Refusal>) -> GotOut {
        match g {
            Ok(e) => GotOut {
                result: 0,
                found: e,
            },
            Err(r) => GotOut {
                result: r.number(),
                found: Found {
                    tag: 0,
                    length: 0,
                    off: 0,
                },
            },
        }
    }
}

fn zero_mdir() -> LfsMdir
    ensures { result ≡ zero_mdir }
{
    LfsMdir {
        pair: LfsPair { n0: 0, n1: 0 },
        rev: 0,
        off: 0,
        etag: 0,
        count: 0,
        erased: false,
        split: false,
        tail: LfsPair { n0: 0, n1: 0 },
        fcrc: LfsFcrc {
            seen: false,
            size: 0,
            sum: 0,
        },
    }
}

// The record and the seed that come back with a refusal: all zero and the seed as given, but both as read where the
// count is too high.
fn refused_read(seed: u32, r: Refusal) -> Fetched
    ensures { (result.dir ≡ refusal_mdir r) × (result.seed ≡ refusal_seed seed r) }
{
    match r {
        Refusal::TooMany(read) => read,
        _ => Fetched {
            dir: zero_mdir(),
            seed,
        },
    }
}

// Of two values, so no `From`: a refusal gives the seed back as it came.
pub fn fetched_out(seed: u32, f: Result<Fetched, Refusal>) -> FetchedOut
    ensures { result ≡ fetched_out seed f }
{
    match f {
        Ok(read) => FetchedOut {
            result: 0,
            dir: read.dir,
            seed: read.seed,
        },
        Err(r) => {
            let read = refused_read(seed, r);
            FetchedOut {
                result: r.number(),
                dir: read.dir,
                seed: read.seed,
            }
        }
    }
}

// "A refusal leaves the info all zero."
impl From<Result<LfsInfo, Refusal>> for InfoOut {
    ghost from_gives = { λ i o. o ≡ info_out i };

    fn from(i: Result<LfsInfo, Refusal>) -> InfoOut {
        match i {
            Ok(info) => {
                let name = info.name;
                InfoOut {
                    result: 0,
                    kind: info.kind,
                    size: info.size,
                    name,
                }
            }
            Err(r) => InfoOut {
                result: r.number(),
                kind: 0,
                size: 0,
                name: [0u8; 256],
            },
        }
    }
}

// The index of -201's entry, the offset of -213's byte, and 0 with every other refusal.
fn refused_index(r: Refusal) -> u32
    ensures { result ≡ refusal_index r }
{
    match r {
        Refusal::BadEntry(i) => i,
        Refusal::NotErased(at) => at,
        _ => 0,
    }
}

// Of two values, as `fetched_out`.
pub fn committed_out(seed: u32, c: Result<Fetched, Refusal>) -> CommittedOut
    ensures { result ≡ committed_out seed c }
{
    match c {
        Ok(read) => CommittedOut {
            result: 0,
            index: 0,
            dir: read.dir,
            seed: read.seed,
        },
        Err(r) => {
            let read = refused_read(seed, r);
            CommittedOut {
                result: r.number(),
                index: refused_index(r),
                dir: read.dir,
                seed: read.seed,
            }
        }
    }
}

impl From<Result<u32, Refusal>> for StoredOut {
    ghost from_gives = { λ s o. o ≡ stored_out s };

    fn from(s: Result<u32, Refusal>) -> StoredOut {
        match s {
            Ok(n) => StoredOut {
                result: 0,
                index: 0,
                stores: n,
            },
            Err(r) => StoredOut {
                result: r.number(),
                index: refused_index(r),
                stores: 0,
            },
        }
    }
}

impl From<Result<Option<u32>, Refusal>> for NamedOut {
    ghost from_gives = { λ a o. o ≡ named_out a };

    fn from(a: Result<Option<u32>, Refusal>) -> NamedOut {
        match a {
            Ok(Some(id)) => NamedOut {
                result: 0,
                found: true,
                id,
            },
            Ok(None) => NamedOut {
                result: 0,
                found: false,
                id: 0,
            },
            Err(r) => NamedOut {
                result: r.number(),
                found: false,
                id: 0,
            },
        }
    }
}

// A count in the 32 bits that C has for it. No table that a build fills has so many places.
fn in_word(n: usize) -> u32
    ensures { result ≡ min n all_ones }
{
    n.min(0xffff_ffff) as u32
}

impl From<Result<usize, Refusal>> for IndexedOut {
    ghost from_gives = { λ i o. o ≡ indexed_out i };

    fn from(i: Result<usize, Refusal>) -> IndexedOut {
        match i {
            Ok(n) => IndexedOut {
                result: 0,
                places: in_word(n),
            },
            Err(r) => IndexedOut {
                result: r.number(),
                places: 0,
            },
        }
    }
}

impl From<Written> for TextOut {
    ghost from_gives = { λ w o. o ≡ text_out w };

    fn from(w: Written) -> TextOut {
        TextOut {
            result: altered_out(w.answer),
            length: w.length,
        }
    }
}
