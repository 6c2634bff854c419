// A commit, step by step: what is done before its entries, with each entry, between the two passes over them, and
// behind them. What a pass knows is one value that it steps, so no scratch memory is needed. What judges only reads,
// and answers a refusal or what goes on; what lays is lent the one block that answers, and can't refuse.
#![tactic(auto)]

ghost use Rattle.std.specs.Prelude.{◌≡◌, ◌-◌, ◌≤◌, ℕ, List, Result, Ok, length};
ghost use Rattle.format.specs.Regular.{rules_of};
ghost use Rattle.sizes.specs.Lent.{of};
ghost use Rattle.commit_regular.specs.Ends.{CommittedTo};
ghost use Rattle.commit_lay.specs.Laid.{body_of};
ghost use Rattle.commit_steps.specs.Steps.{onto, and_then, begun_of, started_of, judged_of, summed_of, forward_summed};
ghost use Rattle.commit_steps.specs.Steps.{decided_of, placed_of, tested_of, LaidBehind, lay_of};
ghost use Rattle.commit_steps.specs.Steps.{forward_laid, checked_of, sealed_of};

use commit_lay::Run;
use fetch::lfs_dir_fetch;
use format::types::CRC_START;
use format::{Fetched, LfsFcrc, Refusal, Rules};
use sizes::Pair;
use std::convert::Infallible;

// "Lookup buffer and entry data at most 65,536 bytes each; at most 8,192 entries"
const MOST_DATA: usize = 65_536;

const MOST_ENTRIES: usize = 8_192;

// The first pass: what fetch found, the index of the next entry, the count there, the bytes so far, and the tag and the
// checksum behind them.
#[derive(Clone, Copy)]
pub struct Judging {
    pub old: Fetched,
    pub index: u32,
    pub count: u32,
    pub size: u32,
    pub prev: u32,
    pub sum: u32,
}

// The second pass: what fetch found, the next store, the tag before it, the forward check that is carried behind the
// entries, or none, and the check that comes last: its tag as it is stored, and the checksum.
#[derive(Clone, Copy)]
pub struct Laying {
    pub old: Fetched,
    pub run: Run,
    pub prev: u32,
    pub fcrc: LfsFcrc,
    pub word: u32,
    pub sum: u32,
}

// The second pass with the block that it lays into.
#[derive(Drop)]
pub struct LayingOnto<'b> {
    pub laying: Laying,
    pub block: &'b mut [u8],
}

// A pass over the entries: what it does with each, which comes as plain numbers: "read by one thin walker that hands
// plain numbers to covered functions". `steps` says what that answers and leaves.
pub trait Pass {
    // What ends the pass early.
    type Bad;

    ghost steps: { Self → List ℕ → ℕ → ℕ → ℕ → ℕ → Result Unit Self.Bad → Self → Type 0 };

    fn entry(&mut self, dat: &[u8], kind: u16, id: u16, off: u32, len: u32) -> Result<(), Self::Bad>
        ensures { steps self.old dat.now kind id off len result self.new };
}

// "Commit: -22, fetch's own refusals, -202". The rule by which the log must be regular is 0 or 1, "any other -22", and
// the erased byte "0xff or 0x00".
#[tactic(auto, unfolding(crate::specs::Steps::begun_of, format::specs::Writer::commit_fits))]
pub fn begin(
    pair: Pair,
    block_count: u32,
    seed: u32,
    rules: u32,
    erased: u8,
    entries: usize,
    dat: &[u8],
) -> Result<Judging, Refusal>
    ensures { result ≡ of pair.entry begun_of block_count seed rules erased entries
        dat.now }
{
    let fits = pair.fits()
        & (dat.len() <= MOST_DATA)
        & (entries <= MOST_ENTRIES)
        & sizes::writes_fit(rules, erased);
    if !fits {
        return Err(Refusal::Invalid);
    }
    let rules = Rules::try_from(rules)?;
    let old = lfs_dir_fetch(pair, block_count, seed)?;
    start(pair.block_of(old.dir), old, rules)
}

// The log of the block that answers must be regular by the rule. Entries run against the record's count.
#[tactic(auto, unfolding(crate::specs::Steps::started_of))]
fn start(b: &[u8], old: Fetched, rules: Rules) -> Result<Judging, Refusal>
    requires { CommittedTo b.now old.dir.off }
    ensures { result ≡ started_of rules b.now old }
{
    if !commit_regular::log_regular(b, old.dir.off as usize, rules) {
        return Err(Refusal::Irregular);
    }
    Ok(Judging {
        old,
        index: 0,
        count: old.dir.count as u32,
        size: 0,
        prev: old.dir.etag,
        sum: CRC_START,
    })
}

// The first pass judges an entry: "-201 | an entry is bad | index from 0 of the first bad one".
impl Pass for Judging {
    type Bad = Refusal;

    ghost steps = { λ j dat kind id off len r k. and_then r (λ _. Ok k) ≡ judged_of j dat kind id off len };

    #[tactic(auto, unfolding(crate::specs::Steps::judged_of))]
    fn entry(&mut self, dat: &[u8], kind: u16, id: u16, off: u32, len: u32) -> Result<(), Refusal> {
        let bad = Refusal::BadEntry(self.index);
        let count = commit_rules::counted(false, kind, self.count, id as u32, len).ok_or(bad)?;
        if !commit_lay::in_buffer(dat, off, len) {
            return Err(bad);
        }
        let tag = tag::lfs_mktag(kind as u32, id as u32, len);
        *self = sum_up(*self, count, tag, dat, off, len);
        Ok(())
    }
}

// Behind a good entry: it is counted and summed.
#[tactic(auto, unfolding(crate::specs::Steps::summed_of, format::specs::Word::xor))]
fn sum_up(j: Judging, count: u32, tag: u32, dat: &[u8], off: u32, len: u32) -> Judging
    ensures { result ≡ summed_of j count tag (body_of dat.now off len) }
{
    Judging {
        old: j.old,
        index: j.index.wrapping_add(1),
        count,
        size: j.size.wrapping_add(tag::lfs_tag_dsize(tag)),
        prev: tag,
        sum: commit_lay::sum_entry(j.sum, tag ^ j.prev, dat, off, len),
    }
}

// Behind the forward check, if it is carried: one entry more.
#[tactic(auto, using(commit_lay::proofs::Parts::pair_body), unfolding(crate::specs::Steps::forward_summed, format::specs::Tag::tag_of))]
fn sum_forward(j: Judging, fcrc: LfsFcrc) -> Judging
    ensures { result ≡ forward_summed j fcrc }
{
    if !fcrc.seen {
        return j;
    }
    let dat = word::le_pair(fcrc.size, fcrc.sum);
    sum_up(j, j.count, commit_room::LFS_FORWARD_TAG, &dat, 0, 8)
}

// Between the passes: good entries are refused here, or it is answered what is to be laid. The pair may be any: sizes
// that don't fit are -22. `stores` is the limit.
#[tactic(auto, unfolding(crate::specs::Steps::decided_of))]
pub fn decide(erased: u8, j: Judging, pair: Pair, stores: u32) -> Result<Laying, Refusal>
    ensures { result ≡ of pair.entry decided_of erased j stores }
{
    if sizes::images_fit(pair.g, pair.b0.len(), pair.b1.len()) {
        place(
            erased,
            j,
            pair.g.prog_size,
            pair.block_of(j.old.dir),
            stores,
        )
    } else {
        Err(Refusal::Invalid)
    }
}

// What is to be laid: the entries, and behind them the forward check if there is room for it. `stores` is the limit.
// For a caller with a block and no pair: any program size from 4 to 512 goes, and any block of up to 32,768 bytes, also
// where they fit no pair.
#[tactic(auto, unfolding(crate::specs::Steps::placed_of))]
pub fn place(erased: u8, j: Judging, prog: u32, b: &[u8], stores: u32) -> Result<Laying, Refusal>
    requires le_prog { 4 ≤ prog }
    requires prog_bound { prog ≤ 512 }
    requires b_len_bound { length b.now ≤ 32_768 }
    ensures { result ≡ placed_of erased j prog b.now stores }
{
    let at = (j.old.dir.off as usize) + (j.size as usize);
    let fcrc = commit_room::forward(erased, prog, b.len(), at);
    test(erased, sum_forward(j, fcrc), fcrc, prog, b, stores)
}

// "-28, -203, -204": the rounded end, the room with its reasons, the coincidence.
#[tactic(auto, unfolding(crate::specs::Steps::tested_of, format::specs::Word::xor))]
fn test(
    erased: u8,
    j: Judging,
    fcrc: LfsFcrc,
    prog: u32,
    b: &[u8],
    stores: u32,
) -> Result<Laying, Refusal>
    requires le_prog { 4 ≤ prog }
    requires prog_bound { prog ≤ 512 }
    requires b_len_bound { length b.now ≤ 32_768 }
    ensures { result ≡ tested_of erased j fcrc prog b.now stores }
{
    let off = j.old.dir.off as usize;
    let at = off + (j.size as usize);
    if b.len() < commit_room::rounded_end(prog, at) {
        return Err(Refusal::NoSpace);
    }
    commit_room::room(erased, prog, b, off, j.old.dir.etag)?;
    let word = commit_room::check_tag(erased, prog, at) ^ j.prev;
    if commit_room::coincides(erased, j.sum, word) {
        return Err(Refusal::Coincidence);
    }
    Ok(Laying {
        old: j.old,
        run: Run {
            at: off,
            left: stores,
        },
        prev: j.old.dir.etag,
        fcrc,
        word,
        sum: commit_lay::sum_be32(j.sum, word),
    })
}

// The second pass lays an entry as it was given, and can't refuse.
impl Pass for LayingOnto<'_> {
    type Bad = Infallible;

    ghost steps = { λ p dat kind id off len r q. LaidBehind p dat kind id off len q };

    #[tactic(auto, unfolding(crate::specs::Steps::laid_of))]
    fn entry(
        &mut self,
        dat: &[u8],
        kind: u16,
        id: u16,
        off: u32,
        len: u32,
    ) -> Result<(), Infallible> {
        let tag = tag::lfs_mktag(kind as u32, id as u32, len);
        self.laying = lay(self.block, self.laying, tag, dat, off, len);
        Ok(())
    }
}

// "tags chained as above, data"
#[tactic(auto, unfolding(crate::specs::Steps::lay_of, format::specs::Word::xor))]
fn lay(b: &mut [u8], l: Laying, tag: u32, dat: &[u8], off: u32, len: u32) -> Laying
    ensures { onto result b.new ≡ lay_of l b.old tag (body_of dat.now off len) }
{
    let run = commit_lay::put_entry(b, l.run, tag ^ l.prev, dat, off, len);
    Laying {
        run,
        prev: tag,
        ..l
    }
}

// Behind the entries: the forward check, "then a check tag .., id 1,023, and the checksum little-endian".
#[tactic(auto, unfolding(crate::specs::Steps::sealed_of))]
pub fn seal(b: &mut [u8], l: Laying) -> Laying
    ensures { onto result b.new ≡ sealed_of l b.old }
{
    let f = lay_forward(b, l);
    lay_check(b, f)
}

// "before its check tag, a forward check entry"
#[tactic(auto, using(commit_lay::proofs::Parts::pair_body), unfolding(crate::specs::Steps::forward_laid, format::specs::Tag::tag_of))]
fn lay_forward(b: &mut [u8], l: Laying) -> Laying
    ensures { onto result b.new ≡ forward_laid l b.old }
{
    let fcrc = l.fcrc;
    if !fcrc.seen {
        return l;
    }
    let dat = word::le_pair(fcrc.size, fcrc.sum);
    lay(b, l, commit_room::LFS_FORWARD_TAG, &dat, 0, 8)
}

#[tactic(auto, using(commit_lay::proofs::Puts::puts_app), unfolding(crate::specs::Steps::checked_of))]
fn lay_check(b: &mut [u8], l: Laying) -> Laying
    ensures { onto result b.new ≡ checked_of l b.old }
{
    let behind = commit_lay::put_be32(b, l.run, l.word);
    let run = commit_lay::put_le32(b, behind, l.sum);
    Laying { run, ..l }
}

// "the number made is the answer": what is left of the limit was not made. Any laying goes, also one with more left
// than the limit.
pub fn made(l: Laying, stores: u32) -> u32
    ensures { result ≡ stores - l.run.left }
{
    stores.saturating_sub(l.run.left)
}
