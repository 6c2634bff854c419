// What a program is asked for: the program size, the two block numbers and the rule that its arguments name, or
// document 01's own where it has none.
#![tactic(auto)]

ghost use Rattle.std.specs.Prelude.{◌≡◌};
ghost use Rattle.text_args.specs.Number.{digit_behind, number_of};

use format::LfsPair;
use std::env::{Env, FillError};
use text_input::{INPUT_PAIR, INPUT_PROG_SIZE, INPUT_RULES};

// The program size and the block numbers of the pair to be shown, and the rule by which its log must be regular: still
// a number, since the texts' calls take any, and show -22 for what is neither 0 nor 1.
#[derive(Clone, Copy)]
pub struct Request {
    pub prog_size: u32,
    pub numbers: LfsPair,
    pub rules: u32,
}

// A number with one digit more behind it.
fn digit_behind(value: u32, digit: u8) -> Option<u32>
    ensures { result ≡ digit_behind value digit }
{
    if !digit.is_ascii_digit() {
        return None;
    }
    value.checked_mul(10)?.checked_add((digit - b'0') as u32)
}

// The number that a text is in decimal: some digits and nothing else, and less than 2^32. By hand: the library's parse
// takes a sign in front too.
pub fn number(text: &[u8]) -> Option<u32>
    ensures { result ≡ number_of text.now }
{
    if text.is_empty() {
        return None;
    }
    let mut value = 0;
    for digit in text {
        value = digit_behind(value, *digit)?;
    }
    Some(value)
}

// How many arguments the program was started with, its own name among them.
// By number: the library's list of arguments is on the heap.
pub fn count<E: Env>(env: &E) -> usize {
    for i in 0..usize::MAX {
        if let Err(FillError::NotPresent) = env.arg(i, &mut []) {
            return i;
        }
    }
    usize::MAX
}

// An argument as a number. One that is longer than the buffer counts as empty, and so as none.
pub fn word<E: Env>(env: &E, i: usize) -> Option<u32> {
    let mut text = [0u8; 32];
    let n = env.arg(i, &mut text).ok()?;
    number(&text[..n])
}

// What the arguments from number `from` on ask for: document 01's own where there are none, else three numbers; and, of
// a program that goes by a rule, a fourth, without which it is document 01's. Nothing where they are not understood.
pub fn asked<E: Env>(env: &E, from: usize, ruled: bool) -> Option<Request> {
    let words = count(env).saturating_sub(from);
    if words == 0 {
        return Some(Request {
            prog_size: INPUT_PROG_SIZE,
            numbers: INPUT_PAIR,
            rules: INPUT_RULES,
        });
    }
    let most = if ruled { 4 } else { 3 };
    if (words < 3) | (most < words) {
        return None;
    }
    let prog_size = word(env, from)?;
    let n0 = word(env, from + 1)?;
    let n1 = word(env, from + 2)?;
    let rules = if words == 4 {
        word(env, from + 3)?
    } else {
        INPUT_RULES
    };
    Some(Request {
        prog_size,
        numbers: LfsPair { n0, n1 },
        rules,
    })
}
