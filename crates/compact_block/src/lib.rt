// One block compacted into another. Two passes run over the entries: the first makes no store and finds whether the
// compaction is refused; the second erases the other block and writes "revision plus one (wrapping) and one commit". A
// refusal alters nothing.
#![tactic(auto)]

ghost use Rattle.std.specs.Prelude.{◌≡◌, min, true, false, length, option_copied};
ghost use Rattle.format.specs.Word.{to_le32, all_ones};
ghost use Rattle.format.specs.Crc.{crc};
ghost use Rattle.format.specs.Log.{log};
ghost use Rattle.format.specs.Regular.{Regular};
ghost use Rattle.format.specs.declared.Rules.TheVariants.{Littlefs};
ghost use Rattle.format.specs.Compaction.{compact_stores, compactable, compact_made};
ghost use Rattle.format.specs.Index.{table_renewed};
ghost use Rattle.compact_entries.specs.Placed.{Indexes};
ghost use Rattle.compact_block.specs.Renewed.{begins, renewed_items, Writable, written_to, Renewable, renewed_to};
ghost use Rattle.compact_block.specs.Renewed.{anew};

use commit_lay::Run;
use compact_entries::Emit;
use format::types::{CRC_START, FIRST_PREV};
use format::{LfsMdir, Refusal, Rules};

// Where the entries begin: behind the revision, "The previous tag starts at 0xffffffff".
fn begin(rev: u32, run: Run) -> Emit
    ensures { result ≡ begins rev run }
{
    let sum = fetch_walk::crc_word(CRC_START, rev);
    Emit {
        run,
        end: 4,
        prev: FIRST_PREV,
        sum,
    }
}

// The second pass: the erase counts as one store, and then single bytes rise, as many as are left.
fn write(
    erased: u8,
    prog: u32,
    old: &[u8],
    new: &mut [u8],
    dir: LfsMdir,
    rev: u32,
    tag: u32,
    stores: u32,
    places: Option<&[u32]>,
) -> u32
    requires { Writable erased prog old.now new.old dir × Indexes old.now (option_copied places) }
    ensures value { result ≡ min stores (compact_stores (renewed_items erased prog old.now)) }
    ensures after { new.new ≡ written_to erased prog old.now new.old rev tag stores }
{
    if stores == 0 {
        return 0;
    }
    // "erases the block ..", to the erased byte: one store
    new.fill(erased);
    let first = Run {
        at: 0,
        left: stores - 1,
    };
    let run = commit_lay::put_le32(new, first, rev);
    let begun = begin(rev, run);
    let e = compact_entries::entries(erased, prog, old, new, begun, dir, places);
    let last = compact_entries::check(new, e, tag);
    1 + last.at as u32
}

// The compaction of the block `old`, whose record is `dir` and whose log is regular, into the block `new`: refused, or
// the number of stores made. The log may have no creates by littlefs's rule, and then the ones that are written may
// pass the block.
fn rewrite(
    prog: u32,
    erased: u8,
    old: &[u8],
    new: &mut [u8],
    dir: LfsMdir,
    stores: u32,
    places: Option<&[u32]>,
) -> Result<u32, Refusal>
    requires { Renewable prog old.now new.old dir × (Regular Littlefs (log old.now) ≡ true)
        × Indexes old.now (option_copied places) }
    ensures value { result ≡ compact_made stores (anew erased prog old.now) }
    ensures after { new.new ≡ renewed_to erased stores new.old
        (anew erased prog old.now) }
{
    let rev = dir.rev.wrapping_add(1);
    let begun = begin(rev, Run { at: 0, left: 0 });
    let e = compact_entries::entries(erased, prog, old, new, begun, dir, places);
    if old.len() < commit_room::rounded_end(prog, e.end) {
        return Err(Refusal::NoSpace);
    }
    let tag = commit_room::check_tag(erased, prog, e.end);
    if commit_room::coincides(erased, e.sum, tag ^ e.prev) {
        return Err(Refusal::Coincidence);
    }
    Ok(write(erased, prog, old, new, dir, rev, tag, stores, places))
}

// The same of a log that must be regular by the rule. The table is working memory: the log is indexed in it, so that
// both passes read their entries from its places and not by a walk back for each slot. Where it is too short for that,
// they walk.
pub fn renew(
    prog: u32,
    rules: Rules,
    erased: u8,
    old: &[u8],
    new: &mut [u8],
    dir: LfsMdir,
    stores: u32,
    table: &mut [u32],
) -> Result<u32, Refusal>
    requires { Renewable prog old.now new.old dir }
    ensures value { result ≡ compact_made stores
        (compactable rules erased prog false old.now (log old.now)) }
    ensures after { new.new ≡ renewed_to erased stores new.old
        (compactable rules erased prog false old.now (log old.now)) }
    ensures table_after { table.new ≡ table_renewed rules (log old.now) table.old }
{
    let end = dir.off as usize;
    if !commit_regular::log_regular(old, end, rules) {
        return Err(Refusal::Irregular);
    }
    let places = match index_pass::build(old, end, table) {
        Ok(n) => Some(&table[0..2 * n]),
        Err(_) => None,
    };
    rewrite(prog, erased, old, new, dir, stores, places)
}
