// A slot by its name, as a program: both images of a pair on standard input, one behind the other; the type of the name
// and the name as arguments, and behind them those that the program `list` takes. The text on standard output.
#![tactic(auto)]

use std::env::Env;
use std::io;
use text_args::Request;

// The buffer has room for every text, which is a slot's part of a listing. An entry of 4 + n bytes shows at most
// 4 * (4 + n), as there, and the slot's line of its own 18.
const ROOM: usize = 131_200;

// Of the type and the name that the first two arguments are. No argument of a process is longer than the buffer.
// The usage and the call are this program's own; what the programs share is `text_print::of_pair`.
fn find(rt: &HostRuntime, kind: u32, ask: Request) -> io::Result<()> {
    let mut name = [0u8; 131_072];
    let length = rt.arg(2, &mut name).unwrap_or(0);
    text_print::of_pair::<ROOM, _, _, _, _>(
        &mut rt.stdin(),
        &mut rt.stdout(),
        &mut rt.stderr(),
        |pair, text| {
            text_find::lfs_dir_find_as(
                ask.prog_size,
                ask.numbers,
                ask.rules,
                &name[..length],
                kind,
                pair,
                text,
            )
        },
    )
}

// The type and what the pair is to be read as; nothing where the arguments are not understood.
fn asked(rt: &HostRuntime) -> Option<(u32, Request)> {
    if text_args::count(rt) < 3 {
        return None;
    }
    let kind = text_args::word(rt, 1)?;
    let ask = text_args::asked(rt, 3, true)?;
    Some((kind, ask))
}

fn main(rt: HostRuntime) -> io::Result<()> {
    match asked(&rt) {
        Some((kind, ask)) => find(&rt, kind, ask),
        None => {
            text_print::usage(
                &mut rt.stderr(),
                b"usage: find TYPE NAME [PROG_SIZE A B [RULES]], both images on standard input\n",
            )
        }
    }
}
