// Document 02, L4: a slot by its name. The block that fetch chooses is passed over once, forward; the answer is what
// asking slot by slot gives. Any geometry, images, numbers, block count, seed, name and type, and any number for the
// rule by which the log must be regular: 0 or 1, "any other -22".
#![tactic(auto)]

ghost use Rattle.std.specs.Prelude.{◌≡◌};
ghost use Rattle.format.specs.Find.{find_of};
ghost use Rattle.sizes.specs.Lent.{of};

use format::{Refusal, Rules};
use sizes::Pair;

// "the lowest id whose live name has the given bytes and type, or none. .. An empty name is -22, and an irregular log
// is -202." A type that no name has, and a name longer than any, are asked for in vain.
pub fn lfs_dir_find(
    pair: Pair,
    block_count: u32,
    seed: u32,
    rules: u32,
    name: &[u8],
    kind: u32,
) -> Result<Option<u32>, Refusal>
    ensures { result ≡ of pair.entry find_of block_count seed rules
        name.now kind }
{
    let rules = Rules::try_from(rules)?;
    if name.is_empty() {
        return Err(Refusal::Invalid);
    }
    let dir = fetch::lfs_dir_fetch(pair, block_count, seed)?.dir;
    let b = pair.block_of(dir);
    find_pass::find_in(b, dir.off as usize, rules, name, kind)
}
