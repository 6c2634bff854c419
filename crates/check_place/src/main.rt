// Calls `commit_steps::place` by itself, what stands between a commit's two passes: on blocks whose sizes fit no pair,
// which `commit_steps::decide` refuses, and on one of a pair. Prints the refusal, or what is to be laid. `stdout` is
// what it must print, worked out by samples/make_places.py.
#![tactic(auto)]

use commit_steps::{Judging, Laying, place};
use format::{Fetched, LfsFcrc, LfsMdir, LfsPair, Refusal};
use std::io;

// A user attribute 0x74 of slot 0, of four bytes.
const TAG: u32 = 0x3740_0004;
// An end tag as it stands behind a commit on flash that erases to 0xff, and to 0x00.
const ONES: u32 = 0x500f_fc08;

const ZEROS: u32 = 0xd01f_fc08;
// As many stores as these commits may have.
const STORES: u32 = 1000;

// What a first pass leaves behind: that attribute alone, behind a log that ends at `off` with the tag `etag`.
fn judged(off: u32, etag: u32, data: &[u8]) -> Judging {
    let none = LfsPair { n0: 0, n1: 0 };
    let dir = LfsMdir {
        pair: none,
        rev: 12,
        off,
        etag,
        count: 1,
        erased: true,
        split: false,
        tail: none,
        fcrc: LfsFcrc {
            seen: false,
            size: 0,
            sum: 0,
        },
    };
    let chained = (TAG ^ etag).to_be_bytes();
    Judging {
        old: Fetched { dir, seed: 34 },
        index: 1,
        count: 1,
        size: 8,
        prev: TAG,
        sum: crc::lfs_crc(crc::lfs_crc(0xffff_ffff, &chained), data),
    }
}

fn laying(rt: &impl Print, l: Laying) -> io::Result<()> {
    let (dir, f) = (l.old.dir, l.fcrc);
    print!(rt; "record {} end {} seed {} ", dir.rev, dir.off, l.old.seed)?;
    print!(rt;
        "from {} left {} behind {:08x} ",
        l.run.at, l.run.left, l.prev
    )?;
    if f.seen {
        print!(rt; "forward {} {:08x} ", f.size, f.sum)?;
    }
    println!(rt; "check {:08x} {:08x}", l.word, l.sum)
}

fn show(rt: &impl Print, words: &str, answer: Result<Laying, Refusal>) -> io::Result<()> {
    print!(rt; "{words}: ")?;
    match answer {
        Ok(l) => laying(rt, l),
        Err(Refusal::NotErased(at)) => println!(rt; "-213 at {at}"),
        Err(r) => println!(rt; "{}", r.number()),
    }
}

// Where a commit ends, and whether it carries a forward check. By program size 7 and from 28 on, the attribute's 8
// bytes and the check's 8 take all up to 49, rounded; with the 12 of a forward check all up to 56, and the unit that it
// is of up to 63.
fn ends(rt: &impl Print) -> io::Result<()> {
    let b = [0xffu8; 256];
    let of_pair = judged(32, ONES, b"data");
    let log = judged(28, ONES, b"data");
    show(rt, "of a pair", place(0xff, of_pair, 16, &b, STORES))?;
    show(rt, "no multiple", place(0xff, log, 7, &b[..130], STORES))?;
    show(rt, "below 128", place(0xff, log, 4, &b[..100], STORES))?;
    show(rt, "a unit left", place(0xff, log, 7, &b[..63], STORES))?;
    show(rt, "a byte less", place(0xff, log, 7, &b[..62], STORES))?;
    show(rt, "full", place(0xff, log, 7, &b[..49], STORES))?;
    show(rt, "too short", place(0xff, log, 7, &b[..48], STORES))
}

// The room's reasons: an end that is no multiple of the program size, an end tag of the other erased byte, a room that
// is written to; and a checksum that coincides. Of two refusals the first.
fn refusals(rt: &impl Print) -> io::Result<()> {
    let b = [0xffu8; 130];
    let mut w = b;
    w[90] = 0xfe;
    w[100] = 0x7f;
    let log = judged(28, ONES, b"data");
    let aside = judged(30, ONES, b"data");
    let tag = judged(28, ZEROS, b"data");
    let both = judged(30, ZEROS, b"data");
    let same = judged(28, ONES, b"\xf8\xf9\xaf\xc4");
    show(rt, "short, aside", place(0xff, aside, 7, &b[..48], STORES))?;
    show(rt, "aside", place(0xff, aside, 7, &b, STORES))?;
    show(rt, "aside, other tag", place(0xff, both, 7, &b, STORES))?;
    show(rt, "other tag", place(0xff, tag, 7, &b, STORES))?;
    show(rt, "other tag, written", place(0xff, tag, 7, &w, STORES))?;
    show(rt, "written", place(0xff, log, 7, &w, STORES))?;
    show(rt, "written, coincides", place(0xff, same, 7, &w, STORES))?;
    show(rt, "coincides", place(0xff, same, 7, &b, STORES))
}

// The other erased byte.
fn zeros(rt: &impl Print) -> io::Result<()> {
    let b = [0x00u8; 130];
    let log = judged(28, ZEROS, b"data");
    let tag = judged(28, ONES, b"data");
    let same = judged(28, ZEROS, b"\x76\x79\x9a\xfb");
    show(rt, "zeros", place(0x00, log, 7, &b, STORES))?;
    show(rt, "zeros, other tag", place(0x00, tag, 7, &b, STORES))?;
    show(rt, "zeros, coincides", place(0x00, same, 7, &b, STORES))
}

fn main(rt: HostRuntime) -> io::Result<()> {
    ends(&rt)?;
    refusals(&rt)?;
    zeros(&rt)
}
