// Replays a fixed list of the Rust's answers, with no Rust at hand: each record of standard input is a fetch or a
// lookup with what the Rust gave (README.md beside this crate says how the list was made; oracle/RECORDED.md has its
// layout). Prints how many of each kind were equal.
#![tactic(auto)]

use format::{Geometry, LfsFcrc, LfsGstate, LfsInfo, LfsMdir, LfsPair, Refusal};
use sizes::Pair;
use std::io;
use std::io::Read;

const MOST: usize = 1024;

// ---- the words of a header, by oracle/RECORDED.md's table; where it has one word for several kinds, by kind

const KIND: usize = 0;

const BLOCK_SIZE: usize = 1;

const PROG_SIZE: usize = 2;

const N0: usize = 3;

const N1: usize = 4;

const BLOCK_COUNT: usize = 5;

const SEED: usize = 6;
// the record: of a fetch the expected one, of a lookup the given one
const PAIR: usize = 7;

const REV: usize = 9;

const END: usize = 10;

const END_TAG: usize = 11;

const COUNT: usize = 12;

const IS_ERASED: usize = 13;

const IS_SPLIT: usize = 14;

const TAIL: usize = 15;
// fetch
const WANT_SEED: usize = 17;
// the lookups
const GDISK: usize = 17;
// getslice
const GMASK: usize = 20;

const GTAG: usize = 21;

const GOFF: usize = 22;
// getgstate
const GIVEN_STATE: usize = 20;
// getinfo
const NAME_MAX: usize = 24;

const ID: usize = 25;
// what is expected: the result of each, and behind it what belongs to its kind
const WANT_RESULT: usize = 26;

const WANT_TAG: usize = 27;

const WANT_TYPE: usize = 27;

const WANT_STATE: usize = 27;

const WANT_SIZE: usize = 28;

const BUFFER_SIZE: usize = 30;

// ---- the kinds: numbers and no enum, since the list may hold any. Another kind is compared as the last one, and
// counted under none.

const FETCH: u32 = 1;

const GETSLICE: u32 = 2;

const GETINFO: u32 = 3;

const GETGSTATE: u32 = 4;

// What getinfo leaves where it refuses.
const NO_INFO: LfsInfo = LfsInfo {
    kind: 0,
    size: 0,
    name: [0; 256],
};

#[derive(Clone, Copy)]
struct Tally {
    fetches: u32,
    slices: u32,
    infos: u32,
    states: u32,
    different: u32,
}

// Word k of a header.
fn at(head: [u8; 128], k: usize) -> u32 {
    if 32 <= k {
        return 0;
    }
    word::lfs_le32_at(&head, k * 4).unwrap_or(0)
}

fn mdir(head: [u8; 128]) -> LfsMdir {
    LfsMdir {
        pair: LfsPair {
            n0: at(head, PAIR),
            n1: at(head, PAIR + 1),
        },
        rev: at(head, REV),
        off: at(head, END),
        etag: at(head, END_TAG),
        count: (at(head, COUNT) % 65536) as u16,
        erased: at(head, IS_ERASED) == 1,
        split: at(head, IS_SPLIT) == 1,
        tail: LfsPair {
            n0: at(head, TAIL),
            n1: at(head, TAIL + 1),
        },
        // the Rust's record has none, and it is not compared
        fcrc: LfsFcrc {
            seen: false,
            size: 0,
            sum: 0,
        },
    }
}

// Three words as a global state.
fn gstate(head: [u8; 128], k: usize) -> LfsGstate {
    if 29 < k {
        return gstate_of(0, 0, 0);
    }
    gstate_of(at(head, k), at(head, k + 1), at(head, k + 2))
}

fn gstate_of(tag: u32, n0: u32, n1: u32) -> LfsGstate {
    LfsGstate {
        tag: tag,
        pair: LfsPair { n0: n0, n1: n1 },
    }
}

// The pair that a call is lent.
fn pair<'a>(head: [u8; 128], b0: &'a [u8], b1: &'a [u8]) -> Pair<'a> {
    Pair {
        g: Geometry {
            block_size: at(head, BLOCK_SIZE),
            prog_size: at(head, PROG_SIZE),
        },
        b0,
        b1,
        n0: at(head, N0),
        n1: at(head, N1),
    }
}

// Equal but for the forward check, which the Rust's record has not.
fn same_mdir(m: LfsMdir, want: LfsMdir) -> bool {
    LfsMdir {
        fcrc: want.fcrc,
        ..m
    } == want
}

// -84, -22 and -2 as the list has them, in two's complement: the test's own numbers, and not those that it tests.
fn number(r: Refusal) -> u32 {
    match r {
        Refusal::Corrupt => 0xffff_ffac,
        Refusal::Invalid => 0xffff_ffea,
        Refusal::NoEntry => 0xffff_fffe,
        Refusal::TooMany(_) => 0xffff_fffe,
        _ => 1,
    }
}

fn same_fetch(head: [u8; 128], b0: &[u8], b1: &[u8]) -> bool {
    let result = at(head, WANT_RESULT);
    let want = mdir(head);
    let seed = at(head, WANT_SEED);
    match fetch::lfs_dir_fetch(pair(head, b0, b1), at(head, BLOCK_COUNT), at(head, SEED)) {
        Ok(read) => (result == 0) & same_mdir(read.dir, want) & (read.seed == seed),
        Err(Refusal::TooMany(read)) => {
            (result == number(Refusal::TooMany(read)))
                & same_mdir(read.dir, want)
                & (read.seed == seed)
        }
        Err(r) => result == number(r),
    }
}

// The lookup into a buffer, and the buffer against the expected one.
fn slice_into(head: [u8; 128], b0: &[u8], b1: &[u8], want: &[u8], buffer: &mut [u8]) -> bool {
    let result = at(head, WANT_RESULT);
    let equal = match lookup::lfs_dir_getslice(
        pair(head, b0, b1),
        mdir(head),
        gstate(head, GDISK),
        at(head, GMASK),
        at(head, GTAG),
        at(head, GOFF),
        buffer,
    ) {
        Ok(e) => (result == 0) & (e.tag == at(head, WANT_TAG)),
        Err(r) => result == number(r),
    };
    equal & (&*buffer == want)
}

fn same_slice(head: [u8; 128], b0: &[u8], b1: &[u8], want: &[u8]) -> bool {
    let mut space = [0xa5u8; 1024];
    let size = want.len();
    if MOST < size {
        return false;
    }
    slice_into(head, b0, b1, want, &mut space[0..size])
}

// The info against the expected words; of a refusal it is all zero.
fn same_info(head: [u8; 128], b0: &[u8], b1: &[u8], want: &[u8]) -> bool {
    let result = at(head, WANT_RESULT);
    let (equal, info) = match lookup::lfs_dir_getinfo(
        pair(head, b0, b1),
        mdir(head),
        gstate(head, GDISK),
        at(head, NAME_MAX),
        at(head, ID),
    ) {
        Ok(info) => (result == 0, info),
        Err(r) => (result == number(r), NO_INFO),
    };
    equal
        & (info.kind as u32 == at(head, WANT_TYPE))
        & (info.size == at(head, WANT_SIZE))
        & (&info.name[..] == want)
}

fn same_state(head: [u8; 128], b0: &[u8], b1: &[u8]) -> bool {
    let mut state = gstate(head, GIVEN_STATE);
    let got = lookup::lfs_dir_getgstate(
        pair(head, b0, b1),
        mdir(head),
        gstate(head, GDISK),
        &mut state,
    );
    let result = at(head, WANT_RESULT);
    let equal = match got {
        Ok(()) => result == 0,
        Err(r) => result == number(r),
    };
    equal & (state == gstate(head, WANT_STATE))
}

// The next header; zeros where the input ends.
fn header<R: Read>(input: &mut R) -> io::Result<[u8; 128]> {
    let mut head = [0u8; 128];
    text_print::read_full(input, &mut head)?;
    Ok(head)
}

// The next n bytes, at most 1,024 of them.
fn part<R: Read>(input: &mut R, n: usize) -> io::Result<[u8; 1024]> {
    let mut bytes = [0u8; 1024];
    if n <= MOST {
        text_print::read_full(input, &mut bytes[0..n])?;
    }
    Ok(bytes)
}

fn one_more(n: u32) -> u32 {
    n.wrapping_add(1)
}

fn compared(head: [u8; 128], kind: u32, b0: &[u8], b1: &[u8], want: &[u8]) -> bool {
    if kind == FETCH {
        return same_fetch(head, b0, b1);
    }
    if kind == GETSLICE {
        return same_slice(head, b0, b1, want);
    }
    if kind == GETINFO {
        return same_info(head, b0, b1, want);
    }
    same_state(head, b0, b1)
}

fn counted(t: Tally, kind: u32, equal: bool) -> Tally {
    let mut next = t;
    if kind == FETCH {
        next.fetches = one_more(t.fetches);
    }
    if kind == GETSLICE {
        next.slices = one_more(t.slices);
    }
    if kind == GETINFO {
        next.infos = one_more(t.infos);
    }
    if kind == GETGSTATE {
        next.states = one_more(t.states);
    }
    if !equal {
        next.different = one_more(t.different);
    }
    next
}

// The record behind a header, compared.
fn replayed<R: Read>(input: &mut R, head: [u8; 128], t: Tally) -> io::Result<Tally> {
    let kind = at(head, KIND);
    let size = at(head, BLOCK_SIZE) as usize;
    let more = at(head, BUFFER_SIZE) as usize;
    let b0 = part(input, size)?;
    let b1 = part(input, size)?;
    let want = part(input, more)?;
    if MOST < size {
        return Ok(counted(t, kind, false));
    }
    if MOST < more {
        return Ok(counted(t, kind, false));
    }
    let equal = compared(head, kind, &b0[0..size], &b1[0..size], &want[0..more]);
    Ok(counted(t, kind, equal))
}

fn report(rt: &impl Print, t: Tally) -> io::Result<()> {
    println!(rt; "lfs_dir_fetch {}", t.fetches)?;
    println!(rt; "lfs_dir_getslice {}", t.slices)?;
    println!(rt; "lfs_dir_getinfo {}", t.infos)?;
    println!(rt; "lfs_dir_getgstate {}", t.states)?;
    println!(rt; "different {}", t.different)
}

// The list to its end, or a hundred thousand records.
fn run<R: Read>(input: &mut R) -> io::Result<Tally> {
    let mut t = Tally {
        fetches: 0,
        slices: 0,
        infos: 0,
        states: 0,
        different: 0,
    };
    for _ in 0..100_000 {
        let head = header(input)?;
        if at(head, KIND) == 0 {
            return Ok(t);
        }
        t = replayed(input, head, t)?;
    }
    Ok(t)
}

fn main(rt: HostRuntime) -> io::Result<()> {
    let tally = run(&mut rt.stdin())?;
    report(&rt, tally)
}
