// Fetches each pair that its arguments name, both blocks in one file, and prints what document 01 says of the edges:
// the count at 1,023 and 1,024, an end at the block size and past it, erased flash, and files that are no pair. Program
// size 16, numbers 0 and 1.
#![tactic(auto)]

use format::{Geometry, LfsMdir, Refusal};
use sizes::Pair;
use std::env::{Env, FillError};
use std::fs::Files;
use std::{fs, io, str};

fn text(rt: &impl Print, bytes: &[u8]) -> io::Result<()> {
    rt.write_all(bytes)
}

fn record(rt: &impl Print, m: LfsMdir) -> io::Result<()> {
    println!(rt; " rev {} end {} count {}", m.rev, m.off, m.count)
}

// The numbers of document 01, and not those of the code that is tested.
fn refused(rt: &impl Print, r: Refusal) -> io::Result<()> {
    match r {
        Refusal::Invalid => text(rt, b"refused -22\n"),
        Refusal::Corrupt => text(rt, b"refused -84\n"),
        Refusal::TooMany(read) => {
            text(rt, b"refused -2")?;
            record(rt, read.dir)
        }
        _ => text(rt, b"refused otherwise\n"),
    }
}

fn show(rt: &impl Print, pair: &[u8]) -> io::Result<()> {
    let half = pair.len() / 2;
    let g = Geometry {
        block_size: (half % 65536) as u32,
        prog_size: 16,
    };
    let pair = Pair {
        g,
        b0: &pair[0..half],
        b1: &pair[half..],
        n0: 0,
        n1: 1,
    };
    match fetch::lfs_dir_fetch(pair, 0, 0) {
        Ok(read) => {
            text(rt, b"found")?;
            record(rt, read.dir)
        }
        Err(r) => refused(rt, r),
    }
}

// A path is text; of one that is none, as of a file that can't be opened, it says so.
fn show_file(rt: &(impl Print + Files), path: &[u8]) -> io::Result<()> {
    text(rt, path)?;
    text(rt, b": ")?;
    let Ok(name) = str::from_utf8(path) else {
        return text(rt, b"cannot be read\n");
    };
    let Ok(mut file) = fs::open(rt, name) else {
        return text(rt, b"cannot be read\n");
    };
    let mut buf = [0u8; 65536];
    let n = text_print::read_full(&mut file, &mut buf)?;
    show(rt, &buf[..n])
}

// The i-th argument's file: whether there is such an argument. One that is longer than any path counts as empty.
fn show_arg(rt: &(impl Print + Files + Env), i: usize) -> io::Result<bool> {
    let mut path = [0u8; 4096];
    let n = match rt.arg(i, &mut path) {
        Ok(n) => n,
        Err(FillError::NotPresent) => return Ok(false),
        Err(FillError::TooLong) => 0,
    };
    show_file(rt, &path[..n])?;
    Ok(true)
}

fn main(rt: HostRuntime) -> io::Result<()> {
    for i in 1..usize::MAX {
        if !show_arg(&rt, i)? {
            break;
        }
    }
    Ok(())
}
