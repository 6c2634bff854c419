// Compaction of a metadata pair: document 01's `lfs_dir_compact`, and the same with a limit of stores or with a table
// lent as working memory. The block that fetch did not answer from is erased and gets the next revision and one commit
// of all that the pair holds. Any geometry, images, numbers, block count and seed, and any number for the rule by which
// the log must be regular (0 or 1, "any other -22") and for the erased byte ("0xff or 0x00", "Any other erased byte is
// -22"). What is written is regular by document 01's rule, whichever was asked for.
#![tactic(auto)]

ghost use Rattle.std.specs.Prelude.{◌≡◌};
ghost use Rattle.format.specs.Compaction.{compact_of, compact_stores_of};
ghost use Rattle.format.specs.Index.{compact_table};
ghost use Rattle.format.specs.Stopped.{CompactLeaves, CompactStoresLeaves};

use format::types::UNLIMITED;
use format::{Fetched, Geometry, Refusal, Rules};
use sizes::Pair;

// What all three calls do, with a limit of stores and a table. Inlined, so that it shares their frame on the stack.
// Rule and erased byte are the numbers that the calls take, tested here, once for all three. The images are two slices
// and no struct of both: `CompactLeaves` says of each what stands in it behind the call.
#[inline(always)]
fn run(
    g: Geometry,
    b0: &mut [u8],
    b1: &mut [u8],
    n0: u32,
    n1: u32,
    block_count: u32,
    seed: u32,
    rules: u32,
    erased: u8,
    stores: u32,
    table: &mut [u32],
) -> Result<u32, Refusal>
    ensures value { result ≡ compact_stores_of g b0.old b1.old n0 n1 block_count seed rules erased
        stores }
    ensures compact_stores_leaves { CompactStoresLeaves g b0.old b1.old n0 n1 block_count seed rules erased
        stores b0.new b1.new }
    ensures table_after { table.new ≡ compact_table g b0.old b1.old n0 n1 block_count seed
        rules erased table.old }
{
    if !sizes::writes_fit(rules, erased) {
        return Err(Refusal::Invalid);
    }
    let rules = Rules::try_from(rules)?;
    let pair = Pair { g, b0, b1, n0, n1 };
    let dir = fetch::lfs_dir_fetch(pair, block_count, seed)?.dir;
    if dir.pair.n0 == n0 {
        compact_block::renew(g.prog_size, rules, erased, b0, b1, dir, stores, table)
    } else {
        compact_block::renew(g.prog_size, rules, erased, b1, b0, dir, stores, table)
    }
}

// "exactly the first n of demand 3's list are made (all, if n is larger) and the number made is the answer": the erase
// is the first, then single bytes rise. `CompactStoresLeaves` has demand 3 of what stands in the images now: the
// finished pair or the old one.
pub fn lfs_dir_compact_stores(
    g: Geometry,
    b0: &mut [u8],
    b1: &mut [u8],
    n0: u32,
    n1: u32,
    block_count: u32,
    seed: u32,
    rules: u32,
    erased: u8,
    stores: u32,
) -> Result<u32, Refusal>
    ensures value { result ≡ compact_stores_of g b0.old b1.old n0 n1 block_count seed rules erased
        stores }
    ensures compact_stores_leaves { CompactStoresLeaves g b0.old b1.old n0 n1 block_count seed rules erased
        stores b0.new b1.new }
{
    let mut none = [0u32; 0];
    run(
        g,
        b0,
        b1,
        n0,
        n1,
        block_count,
        seed,
        rules,
        erased,
        stores,
        &mut none,
    )
}

// Document 02, L8: "the same call with a table lent as working memory, proved to leave the same images and give the
// same answer as the call without, whatever the table's length (where it is too short, the old way is taken)". Behind
// it the table is as a build of the log that was compacted leaves it, and unchanged where there is no such log.
//
// "An accepted call answers what fetch gives on the finished pair from the same seed." No compaction has as many stores
// as the limit here. `CompactLeaves` has demand 3 wherever the call is stopped.
pub fn lfs_dir_compact_with(
    g: Geometry,
    b0: &mut [u8],
    b1: &mut [u8],
    n0: u32,
    n1: u32,
    block_count: u32,
    seed: u32,
    rules: u32,
    erased: u8,
    table: &mut [u32],
) -> Result<Fetched, Refusal>
    ensures value { result ≡ compact_of g b0.old b1.old n0 n1 block_count seed rules erased }
    ensures compact_leaves { CompactLeaves g b0.old b1.old n0 n1 block_count seed rules erased
        b0.new b1.new }
    ensures table_after { table.new ≡ compact_table g b0.old b1.old n0 n1 block_count seed
        rules erased table.old }
{
    run(
        g,
        b0,
        b1,
        n0,
        n1,
        block_count,
        seed,
        rules,
        erased,
        UNLIMITED,
        table,
    )?;
    fetch::lfs_dir_fetch(Pair { g, b0, b1, n0, n1 }, block_count, seed)
}

// The same with no table.
pub fn lfs_dir_compact(
    g: Geometry,
    b0: &mut [u8],
    b1: &mut [u8],
    n0: u32,
    n1: u32,
    block_count: u32,
    seed: u32,
    rules: u32,
    erased: u8,
) -> Result<Fetched, Refusal>
    ensures value { result ≡ compact_of g b0.old b1.old n0 n1 block_count seed rules erased }
    ensures compact_leaves { CompactLeaves g b0.old b1.old n0 n1 block_count seed rules erased
        b0.new b1.new }
{
    let mut none = [0u32; 0];
    lfs_dir_compact_with(
        g,
        b0,
        b1,
        n0,
        n1,
        block_count,
        seed,
        rules,
        erased,
        &mut none,
    )
}
