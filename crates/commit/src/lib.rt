// A commit: "a lent list of entry records (type, id, data offset, length) over a data buffer", appended to the block of
// a pair that answers. Any blocks, numbers, entries and bytes. Two passes over the entries: the first judges, and only
// reads, so a refused call changes nothing; the second lays.
#![tactic(auto)]

ghost use Rattle.std.specs.Prelude.{◌≡◌, length};
ghost use Rattle.format.specs.Writer.{commit_of, commit_stores_of};
ghost use Rattle.format.specs.Stopped.{CommitLeaves, CommitStoresLeaves};
ghost use Rattle.sizes.specs.Lent.{of};
ghost use Rattle.commit_steps.specs.Steps.{onto};
ghost use Rattle.commit.specs.Passes.{Walked, decided_of, written_of, left, ran_of};

use commit_steps::{Laying, LayingOnto, Pass};
use fetch::lfs_dir_refetch;
use format::types::UNLIMITED;
use format::{Entry, Fetched, Geometry, Refusal};
use sizes::Pair;

// The one walker over the list: it hands each entry's plain numbers to the pass, up to what ends the pass.
fn each<P: Pass>(entries: &[Entry], dat: &[u8], pass: &mut P) -> Result<(), P::Bad>
    ensures { Walked P.steps dat.now entries.now pass.old result pass.new }
{
    for e in entries {
        pass.entry(dat, e.kind, e.id, e.off, e.len)?;
    }
    Ok(())
}

// Whether the commit is refused, and else what is to be laid into the block that answers.
// `rules` and `erased` are the numbers that the call takes; `commit_steps::begin` alone tests them.
#[tactic(auto, using(crate::proofs::Walks::walked_judged), unfolding(crate::specs::Passes::decided_of))]
fn decide(
    pair: Pair,
    block_count: u32,
    seed: u32,
    rules: u32,
    erased: u8,
    entries: &[Entry],
    dat: &[u8],
    stores: u32,
) -> Result<Laying, Refusal>
    ensures { result ≡ of pair.entry decided_of block_count seed rules erased
        entries.now dat.now stores }
{
    let mut j = commit_steps::begin(pair, block_count, seed, rules, erased, entries.len(), dat)?;
    each(entries, dat, &mut j)?;
    commit_steps::decide(erased, j, pair, stores)
}

// Every entry, and what is behind them. Nothing ends the second pass early, so `Ok` is all that the walker answers.
#[tactic(auto, using(crate::proofs::Walks::walked_laid), unfolding(crate::specs::Passes::written_of))]
fn write(b: &mut [u8], entries: &[Entry], dat: &[u8], decided: Laying) -> Laying
    ensures { onto result b.new ≡ written_of entries.now dat.now decided b.old }
{
    let mut onto = LayingOnto {
        laying: decided,
        block: b,
    };
    let Ok(()) = each(entries, dat, &mut onto);
    let laid = onto.laying;
    commit_steps::seal(b, laid)
}

// Both passes, with a limit of stores. Which of the two lent images is written is chosen here; they are two slices and
// no struct of both, as in the calls: `CommitLeaves` says of each what stands in it behind the call.
fn run(
    g: Geometry,
    b0: &mut [u8],
    b1: &mut [u8],
    n0: u32,
    n1: u32,
    block_count: u32,
    seed: u32,
    rules: u32,
    erased: u8,
    entries: &[Entry],
    dat: &[u8],
    stores: u32,
) -> Result<Laying, Refusal>
    ensures { left result b0.new b1.new ≡ ran_of g b0.old b1.old n0 n1 block_count seed rules
        erased entries.now dat.now stores }
{
    let pair = Pair { g, b0, b1, n0, n1 };
    let decided = decide(pair, block_count, seed, rules, erased, entries, dat, stores)?;
    if decided.old.dir.pair.n0 == n0 {
        Ok(write(b0, entries, dat, decided))
    } else {
        Ok(write(b1, entries, dat, decided))
    }
}

// "An accepted call answers what fetch gives on the finished pair from the same seed": a refetch from the old record
// gives the same, and walks no more than the commit that was laid. `CommitLeaves` says what stands in both images then,
// and has demand 3: wherever the call is stopped, the pair reads as finished or as never begun.
pub fn lfs_dir_commit(
    g: Geometry,
    b0: &mut [u8],
    b1: &mut [u8],
    n0: u32,
    n1: u32,
    block_count: u32,
    seed: u32,
    rules: u32,
    erased: u8,
    entries: &[Entry],
    dat: &[u8],
) -> Result<Fetched, Refusal>
    ensures { (result ≡ commit_of g b0.old b1.old n0 n1 block_count seed rules erased
        entries.now dat.now)
        × CommitLeaves g b0.old b1.old n0 n1 block_count seed rules erased
        entries.now dat.now b0.new b1.new }
{
    let laid = run(
        g,
        b0,
        b1,
        n0,
        n1,
        block_count,
        seed,
        rules,
        erased,
        entries,
        dat,
        UNLIMITED,
    )?;
    let pair = Pair { g, b0, b1, n0, n1 };
    lfs_dir_refetch(pair, block_count, laid.old.seed, laid.old.dir)
}

// The same "with a limit of n stores: exactly the first n of demand 3's list are made (all, if n is larger) and the
// number made is the answer". `CommitStoresLeaves` has demand 3 of what stands in the images now.
pub fn lfs_dir_commit_stores(
    g: Geometry,
    b0: &mut [u8],
    b1: &mut [u8],
    n0: u32,
    n1: u32,
    block_count: u32,
    seed: u32,
    rules: u32,
    erased: u8,
    entries: &[Entry],
    dat: &[u8],
    stores: u32,
) -> Result<u32, Refusal>
    ensures { (result ≡ commit_stores_of g b0.old b1.old n0 n1 block_count seed rules erased
        entries.now dat.now stores)
        × CommitStoresLeaves g b0.old b1.old n0 n1 block_count seed rules erased
        entries.now dat.now stores b0.new b1.new }
{
    let laid = run(
        g,
        b0,
        b1,
        n0,
        n1,
        block_count,
        seed,
        rules,
        erased,
        entries,
        dat,
        stores,
    )?;
    Ok(commit_steps::made(laid, stores))
}
