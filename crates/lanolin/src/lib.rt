// The C-callable layer: each public call on numbers, slices and one plain struct by value, under a flat name that
// begins `lanolin_` (docs/DECISIONS.md has the shapes). It is thin: no logic of its own, no `requires`. Results are
// document 01's numbers: 0, or the refusal.
#![tactic(auto)]

ghost use Rattle.std.specs.Prelude.{◌≡◌};
ghost use Rattle.lanolin_answers.specs.Values.{committed_out, stored_out};
ghost use Rattle.format.specs.Writer.{commit_of, commit_stores_of};
ghost use Rattle.format.specs.Stopped.{CommitLeaves, CommitStoresLeaves};

use format::{Entry, Geometry};
use lanolin_answers::{CommittedOut, StoredOut};

// Tags, the checksum, small arithmetic, words and pairs: on numbers and slices.
pub mod leaves;

// Fetch and lookups.
pub mod reading;

// Commit and compaction; the exports that hold the list of entries are below.
pub mod writing;

// An index in memory.
pub mod indexing;

// The global state, which stands with the caller.
pub mod global;

// Commit, and the same with a limit of stores. Both hold the list of entries and only pass it on.
#[unsafe(no_mangle)]
pub extern "C" fn lanolin_commit(
    g: Geometry,
    b0: &mut [u8],
    b1: &mut [u8],
    n0: u32,
    n1: u32,
    block_count: u32,
    seed: u32,
    rules: u32,
    erased: u8,
    entries: &[Entry],
    dat: &[u8],
) -> CommittedOut
    ensures { (result ≡ committed_out seed (commit_of g b0.old b1.old n0 n1 block_count seed
        rules erased entries.now dat.now))
        × CommitLeaves g b0.old b1.old n0 n1 block_count seed rules erased
        entries.now dat.now b0.new b1.new }
{
    let c = commit::lfs_dir_commit(
        g,
        b0,
        b1,
        n0,
        n1,
        block_count,
        seed,
        rules,
        erased,
        entries,
        dat,
    );
    lanolin_answers::committed_out(seed, c)
}

#[unsafe(no_mangle)]
pub extern "C" fn lanolin_commit_stores(
    g: Geometry,
    b0: &mut [u8],
    b1: &mut [u8],
    n0: u32,
    n1: u32,
    block_count: u32,
    seed: u32,
    rules: u32,
    erased: u8,
    entries: &[Entry],
    dat: &[u8],
    stores: u32,
) -> StoredOut
    ensures { (result ≡ stored_out (commit_stores_of g b0.old b1.old n0 n1 block_count seed
        rules erased entries.now dat.now stores))
        × CommitStoresLeaves g b0.old b1.old n0 n1 block_count seed rules erased
        entries.now dat.now stores b0.new b1.new }
{
    let s = commit::lfs_dir_commit_stores(
        g,
        b0,
        b1,
        n0,
        n1,
        block_count,
        seed,
        rules,
        erased,
        entries,
        dat,
        stores,
    );
    StoredOut::from(s)
}
