// An index in memory for C callers: built, extended, and asked. Each export hands its numbers, slices and records to
// the call of the same name.
ghost use Rattle.std.specs.Prelude.{◌≡◌};
ghost use Rattle.format.specs.Index.{index_of, index_table, extend_of, extend_table, index_get_of, index_get_buffer};
ghost use Rattle.lanolin_answers.specs.Values.{got_out, indexed_out};

use format::{Geometry, LfsMdir};
use lanolin_answers::{GotOut, IndexedOut};
use sizes::Pair;

#[unsafe(no_mangle)]
pub extern "C" fn lanolin_index(
    g: Geometry,
    b0: &[u8],
    b1: &[u8],
    n0: u32,
    n1: u32,
    dir: LfsMdir,
    rules: u32,
    table: &mut [u32],
) -> IndexedOut
    ensures value { result ≡ indexed_out (index_of g b0.now b1.now n0 n1 dir rules
        table.old) }
    ensures table_after { table.new ≡ index_table g b0.now b1.now n0 n1 dir rules
        table.old }
{
    IndexedOut::from(index::lfs_dir_index(Pair { g, b0, b1, n0, n1 }, dir, rules, table))
}

#[unsafe(no_mangle)]
pub extern "C" fn lanolin_index_extend(
    g: Geometry,
    b0: &[u8],
    b1: &[u8],
    n0: u32,
    n1: u32,
    old: LfsMdir,
    dir: LfsMdir,
    rules: u32,
    table: &mut [u32],
) -> IndexedOut
    ensures value { result ≡ indexed_out (extend_of g b0.now b1.now n0 n1 old dir rules
        table.old) }
    ensures table_after { table.new ≡ extend_table g b0.now b1.now n0 n1 old dir rules
        table.old }
{
    IndexedOut::from(index::lfs_dir_index_extend(
        Pair { g, b0, b1, n0, n1 },
        old,
        dir,
        rules,
        table,
    ))
}

// The entry's tag, length and place.
#[unsafe(no_mangle)]
pub extern "C" fn lanolin_index_get(
    g: Geometry,
    b0: &[u8],
    b1: &[u8],
    n0: u32,
    n1: u32,
    dir: LfsMdir,
    table: &[u32],
    kind: u32,
    id: u32,
    buffer: &mut [u8],
) -> GotOut
    ensures value { result ≡ got_out (index_get_of g b0.now b1.now n0 n1 dir table.now kind id
        buffer.old) }
    ensures buffer_after { buffer.new ≡ index_get_buffer g b0.now b1.now n0 n1 dir
        table.now kind id buffer.old }
{
    GotOut::from(index::get::lfs_dir_index_get(
        Pair { g, b0, b1, n0, n1 },
        dir,
        table,
        kind,
        id,
        buffer,
    ))
}
