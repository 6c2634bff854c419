// Fetching a metadata pair: dir/fetch.rs, lfs.c's lfs_dir_fetch. Of two blocks, tried in rank, the first with a valid
// commit answers. And fetching it again from the end of a record that is known: document 02, L6.
#![tactic(auto)]

ghost use Rattle.std.specs.Prelude.{◌≡◌, ◌<◌};
ghost use Rattle.format.specs.Count.{second_first};
ghost use Rattle.format.specs.Fetch.{fetch_of};
ghost use Rattle.format.specs.Refetch.{held_forward, continued, refetch_of};
ghost use Rattle.sizes.specs.Lent.{of};
ghost use Rattle.fetch.specs.Read.{Readable, Readables, erased_by, mdir_by, answer_by, in_order};
ghost use Rattle.fetch.specs.Known.{Known, known_by};

use fetch_walk::dir::DirState;
use fetch_walk::{Taken, Walked};
use format::types::CRC_START;
use format::{Fetched, LfsFcrc, LfsMdir, LfsPair, Refusal};
use sizes::Pair;

// Where the first tag stands, behind the revision: the end of a log with no commit.
const LOG_START: usize = 4;

// The least end of a log with one: behind a check's tag.
const FIRST_END: u32 = 8;

// "The second block ranks first only if its revision minus the first's, wrapping and read as signed, is above 0."
fn second_first(rev0: u32, rev1: u32) -> bool
    ensures { result ≡ second_first rev0 rev1 }
{
    let newer = util::lfs_scmp(rev1, rev0);
    newer > 0
}

// The erased mark: the last forward check, seen in any commit so far, fits what stands behind the log now.
// What is asked here and of the next two is of the block's own walk: a struct of both would have no other use.
fn erased(prog: u32, b: &[u8], w: Walked) -> bool
    requires { Readable prog b.now w }
    ensures { result ≡ erased_by prog b.now w }
{
    let off = w.taken.off;
    let fcrc = w.taken.dir.fcrc;
    if !w.straight {
        return false;
    }
    if off % (prog as usize) != 0 {
        return false;
    }
    if !fcrc.seen {
        return false;
    }
    let size = fcrc.size as usize;
    if b.len() - off < size {
        return false;
    }
    let to = off + size;
    crc::lfs_crc(CRC_START, &b[off..to]) == fcrc.sum
}

// The record of a block, whose bytes are b, with its pair and its revision.
fn mdir(prog: u32, pair: LfsPair, rev: u32, b: &[u8], w: Walked) -> LfsMdir
    requires { Readable prog b.now w }
    ensures { result ≡ mdir_by prog pair rev b.now w }
{
    let dir = w.taken.dir;
    let tail = dir.tail;
    let fcrc = dir.fcrc;
    LfsMdir {
        pair,
        rev,
        off: w.taken.off as u32,
        etag: w.taken.etag,
        count: dir.count,
        erased: erased(prog, b, w),
        split: dir.split,
        tail,
        fcrc,
    }
}

// "-2 | fetch: count above 1,023 | record and seed as read"
fn answer(prog: u32, pair: LfsPair, rev: u32, b: &[u8], w: Walked) -> Result<Fetched, Refusal>
    requires { Readable prog b.now w }
    ensures { result ≡ answer_by prog pair rev b.now w }
{
    let dir = mdir(prog, pair, rev, b, w);
    let read = Fetched {
        dir,
        seed: w.taken.seed,
    };
    if 1_023 < dir.count {
        return Err(Refusal::TooMany(read));
    }
    Ok(read)
}

// The two blocks in rank: n with its bytes b, and then m with its bytes c, as the definition takes them. "The first
// block with a valid commit answers."
fn in_order(prog: u32, n: u32, b: &[u8], m: u32, c: &[u8], seed: u32) -> Result<Fetched, Refusal>
    requires { Readables prog b.now c.now }
    ensures { result ≡ in_order prog n b.now m c.now seed }
{
    let first = fetch_walk::walk_block(b, seed);
    if first.taken.off != LOG_START {
        let pair = LfsPair { n0: n, n1: m };
        return answer(prog, pair, word::within::le32(b, 0), b, first);
    }
    let second = fetch_walk::walk_block(c, seed);
    if second.taken.off != LOG_START {
        let pair = LfsPair { n0: m, n1: n };
        return answer(prog, pair, word::within::le32(c, 0), c, second);
    }
    Err(Refusal::Corrupt)
}

// Per lfs.c lfs_dir_fetch. Any geometry, images, numbers, block count and seed: "Fetch tests -22, -84, -2." Inlined, so
// that a call holds its pair on the stack once.
#[inline(always)]
pub fn lfs_dir_fetch(pair: Pair, block_count: u32, seed: u32) -> Result<Fetched, Refusal>
    ensures { result ≡ of pair.entry fetch_of block_count seed }
{
    if !pair.fits() {
        return Err(Refusal::Invalid);
    }
    let Pair { g, b0, b1, n0, n1 } = pair;
    let prog = g.prog_size;
    if sizes::too_high(block_count, n0) {
        return Err(Refusal::Corrupt);
    }
    if sizes::too_high(block_count, n1) {
        return Err(Refusal::Corrupt);
    }
    let rev0 = word::within::le32(b0, 0);
    let rev1 = word::within::le32(b1, 0);
    if second_first(rev0, rev1) {
        in_order(prog, n1, b1, n0, b0, seed)
    } else {
        in_order(prog, n0, b0, n1, b1, seed)
    }
}

// A record without a forward check has none, whatever its size and sum say.
fn forward_of(dir: LfsMdir) -> LfsFcrc
    ensures { result ≡ held_forward dir }
{
    let fcrc = dir.fcrc;
    if fcrc.seen {
        return fcrc;
    }
    DirState::empty().fcrc
}

// What a record says of its block, and the seed behind it.
fn known(m: LfsMdir, seed: u32) -> Taken
    ensures { result ≡ known_by seed m }
{
    let tail = m.tail;
    let dir = DirState {
        count: m.count,
        split: m.split,
        tail,
        fcrc: forward_of(m),
    };
    Taken {
        dir,
        off: m.off as usize,
        etag: m.etag,
        seed,
    }
}

// "continue at the end only": b is the block that the record was read from.
fn go_on(prog: u32, b: &[u8], dir: LfsMdir, seed: u32) -> Result<Fetched, Refusal>
    requires { Known prog b.now dir }
    ensures { result ≡ continued prog b.now seed dir }
{
    let w = fetch_walk::walk_again(b, known(dir, seed));
    answer(prog, dir.pair, dir.rev, b, w)
}

// Any geometry, images, numbers, block count, seed and record. "The answer, seed and erased mark shall equal a full
// fetch", where record and seed are of one, and what it read is unchanged.
pub fn lfs_dir_refetch(
    pair: Pair,
    block_count: u32,
    seed: u32,
    dir: LfsMdir,
) -> Result<Fetched, Refusal>
    ensures { result ≡ of pair.entry refetch_of block_count seed dir }
{
    let fits = pair.takes(dir);
    if !(fits & (FIRST_END <= dir.off)) {
        return Err(Refusal::Invalid);
    }
    if sizes::too_high(block_count, pair.n0) | sizes::too_high(block_count, pair.n1) {
        return Err(Refusal::Corrupt);
    }
    let b = pair.block_of(dir);
    go_on(pair.g.prog_size, b, dir, seed)
}
