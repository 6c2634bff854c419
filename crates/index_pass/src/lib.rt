// One forward pass over a part of a block's committed log: what each entry does to the table of an index. The log is
// known to end where it is said to, so nothing is summed again. The functions are for the crates of this repository.
#![tactic(auto)]

ghost use Rattle.std.specs.Prelude.{◌≡◌, List, ℕ, ◌^◌, ◌<◌, length};
ghost use Rattle.format.specs.Log.{log};
ghost use Rattle.format.specs.Index.{placed_act, places_after, indexed_as, table_as, built};
ghost use Rattle.index_table.specs.Held.{Goes};
ghost use Rattle.index_pass.specs.Run.{Startable, Runs, Buildable};

use commit_regular::tags::{Logged, Tags};
use format::Refusal;
use format::types::*;
use index_table::Places;

// What an entry at `at` does to a table.
fn follow(places: &mut Places, tag: u32, at: usize) -> Result<(), Refusal>
    requires { (tag < 2 ^ 31) × (at < 2 ^ 31) }
    ensures { Goes places.old places.new result
        (λ (P : List ℕ). places_after P (placed_act at tag)) }
{
    let id = tag::lfs_tag_id(tag) as u32;
    if let Some(class) = compact_slot::class_of(tag) {
        let rank = index_table::rank_at(id, class);
        if tag::lfs_tag_isdelete(tag) {
            places.unset(rank);
            return Ok(());
        }
        return places.set(rank, tag, (at + 4) as u32);
    }
    match tag::lfs_tag_type3(tag) {
        LFS_TYPE_CREATE => places.make(id),
        LFS_TYPE_DELETE => places.remove(id),
        _ => {}
    }
    Ok(())
}

// The entries from `from` on, behind the tag `prev`, up to `end`, run on a table: how many places are then in use.
// "-221 .. and the table is then all zero"
pub fn run_on(
    b: &[u8],
    from: usize,
    prev: u32,
    end: usize,
    places: &mut Places,
) -> Result<usize, Refusal>
    requires { Startable b.now from prev end places.old }
    ensures { Runs b.now from prev end places.old places.new result }
{
    for logged in Tags::behind(b, from, prev, end) {
        if let Logged::Entry(tag, at) = logged {
            if let Err(full) = follow(places, tag, at) {
                places.clear();
                return Err(full);
            }
        }
    }
    Ok(places.used())
}

// The table of the log that ends at `end`.
pub fn build(b: &[u8], end: usize, table: &mut [u32]) -> Result<usize, Refusal>
    requires { Buildable b.now end }
    ensures value { result ≡ indexed_as (built (length table.old) (log b.now)) }
    ensures table_after { table.new ≡ table_as (length table.old)
        (built (length table.old) (log b.now)) }
{
    let mut places = Places::cleared(table);
    run_on(b, 4, FIRST_PREV, end, &mut places)
}
