// Compaction for C callers, and the same with a limit of stores or with a table. Each export hands its numbers and
// slices to the call of the same name.
ghost use Rattle.std.specs.Prelude.{◌≡◌};
ghost use Rattle.format.specs.Compaction.{compact_of, compact_stores_of};
ghost use Rattle.format.specs.Index.{compact_table};
ghost use Rattle.format.specs.Stopped.{CompactLeaves, CompactStoresLeaves};
ghost use Rattle.lanolin_answers.specs.Values.{committed_out, stored_out};

use format::Geometry;
use lanolin_answers::{CommittedOut, StoredOut, committed_out};

#[unsafe(no_mangle)]
pub extern "C" fn lanolin_compact(
    g: Geometry,
    b0: &mut [u8],
    b1: &mut [u8],
    n0: u32,
    n1: u32,
    block_count: u32,
    seed: u32,
    rules: u32,
    erased: u8,
) -> CommittedOut
    ensures value { result ≡ committed_out seed (compact_of g b0.old b1.old n0 n1 block_count
        seed rules erased) }
    ensures compact_leaves { CompactLeaves g b0.old b1.old n0 n1 block_count seed rules erased
        b0.new b1.new }
{
    committed_out(
        seed,
        compact::lfs_dir_compact(g, b0, b1, n0, n1, block_count, seed, rules, erased),
    )
}

#[unsafe(no_mangle)]
pub extern "C" fn lanolin_compact_stores(
    g: Geometry,
    b0: &mut [u8],
    b1: &mut [u8],
    n0: u32,
    n1: u32,
    block_count: u32,
    seed: u32,
    rules: u32,
    erased: u8,
    stores: u32,
) -> StoredOut
    ensures value { result ≡ stored_out (compact_stores_of g b0.old b1.old n0 n1 block_count seed
        rules erased stores) }
    ensures compact_stores_leaves { CompactStoresLeaves g b0.old b1.old n0 n1 block_count seed rules erased
        stores b0.new b1.new }
{
    StoredOut::from(compact::lfs_dir_compact_stores(
        g,
        b0,
        b1,
        n0,
        n1,
        block_count,
        seed,
        rules,
        erased,
        stores,
    ))
}

// The same with a table as working memory.
#[unsafe(no_mangle)]
pub extern "C" fn lanolin_compact_with(
    g: Geometry,
    b0: &mut [u8],
    b1: &mut [u8],
    n0: u32,
    n1: u32,
    block_count: u32,
    seed: u32,
    rules: u32,
    erased: u8,
    table: &mut [u32],
) -> CommittedOut
    ensures value { result ≡ committed_out seed (compact_of g b0.old b1.old n0 n1 block_count
        seed rules erased) }
    ensures compact_leaves { CompactLeaves g b0.old b1.old n0 n1 block_count seed rules erased
        b0.new b1.new }
    ensures table_after { table.new ≡ compact_table g b0.old b1.old n0 n1 block_count seed
        rules erased table.old }
{
    committed_out(
        seed,
        compact::lfs_dir_compact_with(g, b0, b1, n0, n1, block_count, seed, rules, erased, table),
    )
}
