// A set of slot ids, one bit for each id below 1,024, in 32 words: id i is bit i % 32 of word i / 32. A slot that is
// made or removed moves the bits above it. The functions require an id below 1,024, and are for the crates of this
// repository.
#![tactic(auto)]

ghost use Rattle.std.specs.Prelude.{◌≡◌, ◌+◌, ◌*◌, ◌%◌, ◌^◌, ◌<◌, get_or};
ghost use Rattle.std.proofs.Math.ListN as list;
ghost use Rattle.find_set.specs.Set.{Is, has, made, removed, assigned, lowest};
ghost use Rattle.find_set.specs.Digit.{opened, closed};

// A slot is made at `id`: the ids from there on are one higher. From the last word down, so that the top digit of a
// word is read for the next one before the word moves. By number: each word takes in a digit of the one before it.
pub fn insert(words: &mut [u32; 32], id: u32)
    requires { id < 1_024 }
    ensures { Is words.new (made id (has words.old)) }
{
    let at = (id / 32) as usize;
    for i in (at + 1..32).rev() {
        let top = words[i - 1] >> 31;
        open_word(words, i, 0, top);
    }
    open_word(words, at, id % 32, 0);
}

// The slot `id` is removed: the ids above it are one lower. From the last word down: what a word loses at its bottom,
// the word before it takes in at its top. By number, for that too.
pub fn remove(words: &mut [u32; 32], id: u32)
    requires { id < 1_024 }
    ensures { Is words.new (removed id (has words.old)) }
{
    let at = (id / 32) as usize;
    let mut carry = 0;
    for i in (at + 1..32).rev() {
        let lowest = words[i] % 2;
        close_word(words, i, 0, carry);
        carry = lowest;
    }
    close_word(words, at, id % 32, carry);
}

// Whether the slot `id` is in the set is this from now on: its digit is taken out of its word, and the new one put in
// there.
pub fn assign(words: &mut [u32; 32], id: u32, is: bool)
    requires { id < 1_024 }
    ensures { Is words.new (assigned id is (has words.old)) }
{
    let at = (id / 32) as usize;
    close_word(words, at, id % 32, 0);
    open_word(words, at, id % 32, is as u32);
}

// The lowest id of the set, and 1,024 where it is empty: words that are zero have none, and the first other one has the
// lowest.
// 1,024 and no None: its clause is the definition `lowest`, which answers so where there is none.
pub fn first(words: &[u32; 32]) -> u32
    ensures { result ≡ lowest 1_024 0 (has words.now) }
{
    for (i, word) in words.iter().enumerate() {
        if *word != 0 {
            return (i as u32) * 32 + word.trailing_zeros();
        }
    }
    1_024
}

// A digit comes into word `i` at place `k`, and the top one is lost. The bounds are asked of three functions here
// alone: types for them would have no other use.
#[tactic(auto, unfolding(crate::specs::Digit::opened))]
fn open_word(words: &mut [u32; 32], i: usize, k: u32, digit: u32)
    requires { (i < 32) × (k < 32) × (digit < 2) }
    ensures { words.new
        ≡ list.set words.old i (opened k digit (get_or words.old i 0) % 2 ^ 32) }
{
    let word = words[i] as u64;
    words[i] = joined((word >> k) * 2 + digit as u64, word, k);
}

// The digit of word `i` at place `k` is taken out, and one comes in at the top.
#[tactic(auto, unfolding(crate::specs::Digit::closed))]
fn close_word(words: &mut [u32; 32], i: usize, k: u32, digit: u32)
    requires { (i < 32) × (k < 32) × (digit < 2) }
    ensures { words.new
        ≡ list.set words.old i (closed k (digit * 2 ^ 32 + get_or words.old i 0) % 2 ^ 32) }
{
    let word = (digit as u64) * 0x1_0000_0000 + words[i] as u64;
    words[i] = joined((word >> k) / 2, word, k);
}

// The word that has the digits of `above` from place `k` on, and those of `below` below it.
fn joined(above: u64, below: u64, k: u32) -> u32
    requires { (k < 32) × (above < 2 ^ 33) }
    ensures { result ≡ (above * 2 ^ k + below % 2 ^ k) % 2 ^ 32 }
{
    ((above << k | below & (1 << k) - 1) & 0xffff_ffff) as u32
}
