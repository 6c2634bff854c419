// What a table answers: an entry's tag, length and place, found by halving, and its bytes.
ghost use Rattle.std.specs.Prelude.{◌≡◌};
ghost use Rattle.format.specs.Index.{index_hit, index_get_of, index_get_buffer};
ghost use Rattle.sizes.specs.Lent.{of};

use format::types::{LONGEST_BUFFER, NO_SLOT, TYPE3_MASK};
use format::{Found, LfsMdir, Refusal};
use sizes::Pair;

// What a table says: "any 0x0xx asks the name, any 0x2xx the struct, 0x300 to 0x3ff that attribute; any other type, and
// an id that the table has not (above 1,023 too), finds nothing".
#[tactic(auto, unfolding(format::specs::Index::index_hit))]
fn place_of(table: &[u32], kind: u32, id: u32) -> Option<Found>
    ensures { result ≡ index_hit table.now kind id }
{
    if (TYPE3_MASK < kind) | (NO_SLOT < id) {
        return None;
    }
    let class = compact_slot::class_of(kind * 0x10_0000)?;
    let rank = index_table::rank_at(id, class);
    let at = index_table::seek(table, rank, 0);
    if table.len() / 2 <= at {
        return None;
    }
    let tag = table[2 * at];
    if index_table::rank_of(tag) != rank {
        return None;
    }
    Some(Found {
        tag,
        length: tag::lfs_tag_dsize(tag),
        off: table[2 * at + 1],
    })
}

// "tag, length, place and buffer as L3's answer": the slice from 0. "A table that no build made is answered in bounds:
// what it says is checked against the block (an offset past it is -84), and nothing else is asked of it."
pub fn lfs_dir_index_get(
    pair: Pair,
    dir: LfsMdir,
    table: &[u32],
    kind: u32,
    id: u32,
    buffer: &mut [u8],
) -> Result<Found, Refusal>
    ensures value { result ≡ of pair.entry index_get_of dir table.now kind id
        buffer.old }
    ensures buffer_after { buffer.new ≡ of pair.entry index_get_buffer dir
        table.now kind id buffer.old }
{
    let fits = pair.takes(dir);
    if !(fits & (buffer.len() <= LONGEST_BUFFER)) {
        return Err(Refusal::Invalid);
    }
    let Some(e) = place_of(table, kind, id) else {
        return Err(Refusal::NoEntry);
    };
    let b = pair.block_of(dir);
    lookup_search::slice::read_at(b, e, 0, buffer)
}
