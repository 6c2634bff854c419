// A pair as the programs take it, both images one behind the other, and a refusal as they show it: what every text of a
// pair begins with. Any bytes may be given.
#![tactic(auto)]

ghost use Rattle.std.specs.Prelude.{◌≡◌, ℕ, List, length};
ghost use Rattle.format.specs.declared.LfsMdir.{LfsMdir};
ghost use Rattle.format.specs.declared.Rules.{Rules};
ghost use Rattle.format.specs.Listing.{refused_line, fetch_input};
ghost use Rattle.format.specs.Look.{bytes_of, FoundIn};
ghost use Rattle.text.specs.Put.{Puts};
ghost use Rattle.text_input.specs.Input.{input_text};
ghost use Rattle.text_input.specs.Answer.{answer_text};

use format::{Fetched, Found, Geometry, LfsPair, Refusal, Rules};
use sizes::Pair;
use text::Text;

mod answering;

pub use answering::Answering;

// Document 01's own input: "program size 16, numbers 0 and 1".
pub const INPUT_PROG_SIZE: u32 = 16;

pub const INPUT_PAIR: LfsPair = LfsPair { n0: 0, n1: 1 };

// Document 01's own rule, by which a log is regular.
pub const INPUT_RULES: u32 = 0;

// What fetch answers for both images, one behind the other: "block size is half the length, .. block count 0, seed 0;
// an odd length or one above 65,536 is -22". The program size and the two block numbers are given.
#[tactic(auto, unfolding(format::specs::Listing::fetch_input))]
pub fn fetch_input(prog_size: u32, numbers: LfsPair, input: &[u8]) -> Result<Fetched, Refusal>
    ensures { result ≡ fetch_input prog_size numbers input.now }
{
    let n = input.len();
    if (n % 2 == 1) | (65_536 < n) {
        return Err(Refusal::Invalid);
    }
    let (b0, b1) = input.split_at(n / 2);
    let g = Geometry {
        block_size: (n / 2) as u32,
        prog_size,
    };
    let LfsPair { n0, n1 } = numbers;
    fetch::lfs_dir_fetch(Pair { g, b0, b1, n0, n1 }, 0, 0)
}

// What there is to show of an input: the rule is 0 or 1, "any other -22", which is tested here. Fetch refuses two equal
// numbers, so the first number of the record says which half answers.
pub fn ask(
    prog_size: u32,
    numbers: LfsPair,
    rules: u32,
    input: &[u8],
) -> Result<Answering<'_>, Refusal>
    ensures shown { (shows : Rules → LfsMdir → List ℕ → List ℕ)
        → answer_text shows result ≡ input_text shows prog_size numbers rules input.now }
{
    let rules = Rules::try_from(rules)?;
    let dir = fetch_input(prog_size, numbers, input)?.dir;
    // no Pair::block_of: what would answer the Pair here and in fetch_input needs a clause for each of its fields
    let (first, second) = input.split_at(input.len() / 2);
    let block = if dir.pair.n0 == numbers.n0 {
        first
    } else {
        second
    };
    Ok(Answering { rules, dir, block })
}

// The data of an entry that was found.
#[tactic(auto, using(format::proofs::Searched::part_is))]
pub fn data_of(b: &[u8], e: Found) -> &[u8]
    requires { FoundIn (length b.now) e }
    ensures { result.now ≡ bytes_of b.now e }
{
    let from = e.off as usize;
    &b[from..from + (e.length - 4) as usize]
}

// "A refusal prints `refused` and its number".
#[tactic(auto, unfolding(format::specs::Listing::refused_line, text::specs::Put::puts_of), using(text::proofs::Joined::puts_append))]
pub fn refused(text: &mut Text, r: Refusal)
    ensures { Puts text.old text.new (refused_line r) }
{
    text.puts(b"refused ");
    text.integer(r.number());
    text.puts(b"\n");
}
