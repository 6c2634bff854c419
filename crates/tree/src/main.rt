// The tree of a volume, as a program: the volume on standard input, the text on standard output. The block size is the
// first argument; behind it may stand the program size, the two block numbers and the rule, as the program `list` takes
// them. A refusal is shown as the listing shows one, behind the lines that were given before it.
#![tactic(auto)]

use format::{Geometry, Refusal};
use std::io;
use text::Text;
use text_args::Request;

// "at most 4,096": all that a call takes.
const ALLOWANCE: u32 = 4_096;

// "A refusal prints `refused` and its number".
fn show_refusal(rt: &HostRuntime, r: Refusal) -> io::Result<()> {
    let mut line = [0u8; 32];
    let mut text = Text::new(&mut line);
    text_input::refused(&mut text, r);
    let n = text.len();
    text_print::whole(&mut rt.stdout(), &mut rt.stderr(), &line, n as usize)?;
    Ok(())
}

// Room for a text, and for a volume and a byte more. Functions of their own, so that no proof but their own sees so
// long an array.
fn text_room() -> [u8; 524_288] {
    [0u8; 524_288]
}

fn volume_room() -> [u8; 524_289] {
    [0u8; 524_289]
}

fn show(rt: &HostRuntime, block_size: u32, ask: Request, volume: &[u8]) -> io::Result<()> {
    let g = Geometry {
        block_size,
        prog_size: ask.prog_size,
    };
    let mut text = text_room();
    let tree = tree_walk::lfs_dir_tree(
        g,
        volume,
        ask.numbers.n0,
        ask.numbers.n1,
        ask.rules,
        ALLOWANCE,
        &mut text,
    );
    let length = tree.length as usize;
    if text_print::whole(&mut rt.stdout(), &mut rt.stderr(), &text, length)? {
        if let Err(r) = tree.answer {
            show_refusal(rt, r)?;
        }
    }
    Ok(())
}

fn tree(rt: &HostRuntime, block_size: u32, ask: Request) -> io::Result<()> {
    let mut volume = volume_room();
    let n = text_print::read_full(&mut rt.stdin(), &mut volume)?;
    show(rt, block_size, ask, &volume[..n])
}

// The block size and what the volume is to be read as; nothing where the arguments are not understood.
fn asked(rt: &HostRuntime) -> Option<(u32, Request)> {
    let block_size = text_args::word(rt, 1)?;
    let ask = text_args::asked(rt, 2, true)?;
    Some((block_size, ask))
}

fn main(rt: HostRuntime) -> io::Result<()> {
    match asked(&rt) {
        Some((block_size, ask)) => tree(&rt, block_size, ask),
        None => {
            text_print::usage(
                &mut rt.stderr(),
                b"usage: tree BLOCK_SIZE [PROG_SIZE A B [RULES]], the volume on standard input\n",
            )
        }
    }
}
