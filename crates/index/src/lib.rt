// An index of a metadata pair in a lent table (document 02, L8): built in one forward pass, extended by what later
// commits add, and asked in place of the walk back. Any geometry, images, numbers, records, rule and table. littlefs
// has no such calls.
#![tactic(auto)]

ghost use Rattle.std.specs.Prelude.{◌≡◌, ◌≤◌, length};
ghost use Rattle.format.specs.Index.{index_of, index_table, extend_of, extend_table};
ghost use Rattle.sizes.specs.Lent.{of};
ghost use Rattle.index.specs.Blocks.{InBlock, indexed_in, tabled_in, extended_in, extended_table};

use format::{LfsMdir, Refusal, Rules};
use index_table::Places;
use sizes::Pair;

// What a table answers.
pub mod get;

// A block's table for the log up to `end`: "-202 for a log that is irregular by the given rule, or a record whose end
// is no commit boundary of its block's committed log, table unchanged". The walk sums what it passes: a record is taken
// from anybody.
fn index_block(b: &[u8], end: usize, rules: Rules, table: &mut [u32]) -> Result<usize, Refusal>
    requires { InBlock b.now end }
    ensures value { result ≡ indexed_in rules b.now end (length table.old) }
    ensures table_after { table.new ≡ tabled_in rules b.now end table.old }
{
    if end <= 4 {
        return Err(Refusal::Irregular);
    }
    let log = &b[0..end];
    let walked = fetch_walk::walk_block(log, 0);
    if walked.taken.off != end {
        return Err(Refusal::Irregular);
    }
    if !commit_regular::log_regular(log, end, rules) {
        return Err(Refusal::Irregular);
    }
    index_pass::build(log, end, table)
}

// "every live name, struct and user attribute of every slot", where each stands.
pub fn lfs_dir_index(
    pair: Pair,
    dir: LfsMdir,
    rules: u32,
    table: &mut [u32],
) -> Result<usize, Refusal>
    ensures value { result ≡ of pair.entry index_of dir rules table.old }
    ensures table_after { table.new ≡ of pair.entry index_table dir rules
        table.old }
{
    let rules = Rules::try_from(rules)?;
    if !pair.takes(dir) {
        return Err(Refusal::Invalid);
    }
    let b = pair.block_of(dir);
    index_block(b, dir.off as usize, rules, table)
}

// A block's table for the log up to `end`, from the one up to `old`: the walk goes on where the old log ends, and the
// pass runs the entries behind it on the places that stand in the table.
fn extend_block(
    b: &[u8],
    old: usize,
    end: usize,
    rules: Rules,
    table: &mut [u32],
) -> Result<usize, Refusal>
    requires { InBlock b.now end × (old ≤ end) }
    ensures value { result ≡ extended_in rules b.now old end table.old }
    ensures table_after { table.new ≡ extended_table rules b.now old end table.old }
{
    if old <= 4 {
        return Err(Refusal::Irregular);
    }
    let walked = fetch_walk::walk_block(&b[0..old], 0);
    let known = walked.taken;
    if known.off != old {
        return Err(Refusal::Irregular);
    }
    let log = &b[0..end];
    let on = fetch_walk::walk_again(log, known);
    if on.taken.off != end {
        return Err(Refusal::Irregular);
    }
    if !commit_regular::log_regular(log, end, rules) {
        return Err(Refusal::Irregular);
    }
    let mut places = Places::trimmed(table);
    index_pass::run_on(log, old, known.etag, end, &mut places)
}

// "the same table as building afresh .. when the table given is the old record's. Any other table gets a defined answer
// inside its bounds."
pub fn lfs_dir_index_extend(
    pair: Pair,
    old: LfsMdir,
    dir: LfsMdir,
    rules: u32,
    table: &mut [u32],
) -> Result<usize, Refusal>
    ensures value { result ≡ of pair.entry extend_of old dir rules table.old }
    ensures table_after { table.new ≡ of pair.entry extend_table old dir rules
        table.old }
{
    let rule = Rules::try_from(rules)?;
    let fits = pair.takes(dir) & pair.takes(old);
    if !(fits & (old.pair.n0 == dir.pair.n0) & (old.off <= dir.off)) {
        return Err(Refusal::Invalid);
    }
    let b = pair.block_of(dir);
    extend_block(b, old.off as usize, dir.off as usize, rule, table)
}
