// The tree of a volume as text (document 02, L9): every directory and file from a given pair, a line for each. Two
// functions call each other, the directory walk and the slot walk. The allowance of pairs is handed on and back, and
// falls at each pair; the depth bounds how deep the two call each other, and so the stack.
#![tactic(auto)]

ghost use Rattle.std.specs.Prelude.{◌≡◌, ◌≤◌};
ghost use Rattle.format.specs.Tree.{tree_fits, tree_of, tree_text};
ghost use Rattle.format.specs.Listing.{written_to};
ghost use Rattle.tree_pair.specs.Pair.{Stands};
ghost use Rattle.tree_walk.specs.Walks.{stopped_at, DirWalks, SlotWalks, Asks};

use format::{Geometry, LfsPair, Refusal, Rules, Written};
use text::Text;
use tree_pair::{Dir, Entry};
use volume::Volume;

// "a depth of at most 32, the given pair's being 0"
const DEEPEST: u32 = 32;

// "a falling allowance of pairs, at most 4,096 (more is -22)"
const MOST_PAIRS: u32 = 4_096;

// What a walk comes to: whether it went to its end, and what is left of the allowance, on a refusal too.
#[derive(Clone, Copy)]
pub struct Walked {
    pub answer: Result<(), Refusal>,
    pub left: u32,
}

// A walk that ends here.
fn stopped(r: Refusal, left: u32) -> Walked
    ensures { result ≡ stopped_at r left }
{
    Walked {
        answer: Err(r),
        left,
    }
}

// The directory walk: the slots of a pair, and of the pairs behind it as far as hard tails lead. "-232 depth, -231
// allowance spent, the fetch's own, -202", at the first pair where they apply.
#[cycle(dir_walk_slot_walk)]
fn dir_walk(
    text: &mut Text,
    vol: Volume,
    rules: Rules,
    depth: u32,
    pair: LfsPair,
    left: u32,
) -> Walked
    ensures { DirWalks vol.entry.g vol.entry.bytes.now rules depth pair left text.old result text.new }
{
    if DEEPEST < depth {
        return stopped(Refusal::TooDeep, left);
    }
    // no range: the next directory is the tail of this one
    let mut next = pair;
    let mut spare = left;
    loop {
        if spare == 0 {
            return stopped(Refusal::Spent, spare);
        }
        let dir = match tree_pair::open_in(vol, rules, next) {
            Err(r) => return stopped(r, spare - 1),
            Ok(dir) => dir,
        };
        let walked = slot_walk(text, vol, rules, depth, dir, spare - 1);
        let Ok(()) = walked.answer else {
            return walked;
        };
        let Some(tail) = dir.tail else {
            return walked;
        };
        next = tail;
        spare = walked.left;
    }
}

// The slot walk: the line of each entry in id order, and behind a directory's line what is in it, one deeper.
#[cycle(dir_walk_slot_walk)]
fn slot_walk(text: &mut Text, vol: Volume, rules: Rules, depth: u32, dir: Dir, left: u32) -> Walked
    requires { Stands vol.g vol.bytes.now dir × (depth ≤ 32) }
    ensures { SlotWalks vol.entry.g vol.entry.bytes.now rules depth dir left text.old result text.new }
{
    let b = vol.block(dir.block);
    let mut spare = left;
    for id in 0..dir.count {
        let Some(entry) = tree_pair::entry_of(b, dir.end, dir.etag, id) else {
            continue;
        };
        tree_pair::entry_line(text, b, depth, entry);
        if let Entry::Dir(_, pair) = entry {
            let walked = dir_walk(text, vol, rules, depth + 1, pair, spare);
            let Ok(()) = walked.answer else {
                return walked;
            };
            spare = walked.left;
        }
    }
    Walked {
        answer: Ok(()),
        left: spare,
    }
}

// What a tree is asked for: a volume that fits, and the rule; "any other -22", which is tested here.
#[tactic(auto, unfolding(format::specs::Tree::tree_fits))]
fn asked<'a>(
    g: Geometry,
    vol: &'a [u8],
    rules: u32,
    allowance: u32,
) -> Result<(Volume<'a>, Rules), Refusal>
    ensures { Asks g vol.now rules allowance result }
{
    let volume = Volume::new(g, vol)?;
    if MOST_PAIRS < allowance {
        return Err(Refusal::Invalid);
    }
    Ok((volume, Rules::try_from(rules)?))
}

// The tree of a volume, as far as `out` has room. Any geometry, volume, numbers, rule and allowance; the rule by which
// the logs must be regular is 0 or 1, "any other -22". The answer's length is that of the whole text; "Lines given
// before a refusal stay".
pub fn lfs_dir_tree(
    g: Geometry,
    vol: &[u8],
    n0: u32,
    n1: u32,
    rules: u32,
    allowance: u32,
    out: &mut [u8],
) -> Written
    ensures value { result ≡ tree_of g vol.now n0 n1 rules allowance }
    ensures out_after { out.new ≡ written_to out.old
        (tree_text g vol.now n0 n1 rules allowance) }
{
    let (volume, rules) = match asked(g, vol, rules, allowance) {
        Err(r) => {
            return Written {
                answer: Err(r),
                length: 0,
            };
        }
        Ok(asked) => asked,
    };
    let mut text = Text::new(out);
    let walked = dir_walk(&mut text, volume, rules, 0, LfsPair { n0, n1 }, allowance);
    Written {
        answer: walked.answer,
        length: text.len(),
    }
}
