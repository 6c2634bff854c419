// Runs the counts of crate `bits` and the Rust's shifts beside each other. That they agree is proved
// (`bits_shifts::agree`); that the compiled counts do is seen here: at each corner, and on 2^20 words. `stdout` is what
// it must print, worked out by samples/make_counts.py.
#![tactic(auto)]

use std::io;

const WORDS: u32 = 0x10_0000;

fn text(rt: &impl Print, words: &str) -> io::Result<()> {
    rt.print(words)
}

// A word, and what the counts give.
fn show(rt: &impl Print, a: u32) -> io::Result<()> {
    let (npw2, ctz, popc) = (bits::lfs_npw2(a), bits::lfs_ctz(a), bits::lfs_popc(a));
    print!(rt; "{a:08x} npw2 {npw2} ctz {ctz} popc {popc}")?;
    if bits_shifts::agree(a) {
        text(rt, "\n")
    } else {
        text(rt, ", but not by shifts\n")
    }
}

// 2 to the k and its neighbours.
fn corners(rt: &impl Print) -> io::Result<()> {
    for k in 0..32u32 {
        let power = 1u32 << k;
        show(rt, power.wrapping_sub(1))?;
        show(rt, power)?;
        show(rt, power.wrapping_add(1))?;
    }
    show(rt, 0xffff_ffff)
}

// The i-th of words that are all different before they are shifted down or up: they have every length, and every number
// of zeros at their end.
fn word(i: u32) -> u32 {
    let spread = ((i as u64) * 0x9e37_79b1 % 0x1_0000_0000) as u32;
    let digits = i / 2 % 32;
    if i % 2 == 0 {
        spread >> digits
    } else {
        spread << digits
    }
}

fn byte(n: u32) -> u8 {
    (n % 256) as u8
}

// The checksum of the answers, as far as they go.
fn summed(sum: u32, npw2: u32, ctz: u32, popc: u32) -> u32 {
    crc::lfs_crc(sum, &[byte(npw2), byte(ctz), byte(popc)])
}

fn by_counts(sum: u32, a: u32) -> u32 {
    summed(sum, bits::lfs_npw2(a), bits::lfs_ctz(a), bits::lfs_popc(a))
}

fn by_shifts(sum: u32, a: u32) -> u32 {
    summed(
        sum,
        bits_shifts::lfs_npw2(a),
        bits_shifts::lfs_ctz(a),
        bits_shifts::lfs_popc(a),
    )
}

fn many(rt: &impl Print) -> io::Result<()> {
    let mut counts = 0xffff_ffffu32;
    let mut shifts = 0xffff_ffffu32;
    for i in 0..WORDS {
        let a = word(i);
        counts = by_counts(counts, a);
        shifts = by_shifts(shifts, a);
    }
    println!(rt; "words {}", WORDS)?;
    println!(rt; "by counts {counts:08x}")?;
    println!(rt; "by shifts {shifts:08x}")
}

fn main(rt: HostRuntime) -> io::Result<()> {
    corners(&rt)?;
    many(&rt)
}
