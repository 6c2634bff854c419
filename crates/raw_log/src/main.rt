// The raw log as a program: both images of a pair on standard input, one behind the other, the text on standard output.
// `--full` as the first argument shows all data; behind it, or alone, the arguments are those of the program `list`,
// but for the rule: every log is shown as it is.
#![tactic(auto)]

use std::env::Env;
use std::io;

// Room for every text. Of what the walk meets a check with one byte behind it shows most for its length, a line of 71
// bytes and one of 67 for five; so every byte of a block shows less than 28. The other lines of a block have less than
// 300 bytes, and the last line has at most 30.
const ROOM: usize = 1_836_000;

// Whether the first argument is `--full`.
fn asks_full(rt: &HostRuntime) -> bool {
    let mut word = [0u8; 8];
    let n = rt.arg(1, &mut word).unwrap_or(0);
    word[..n].starts_with(b"--full") & (n == 6)
}

// The usage and the call are this program's own; what the programs share is `text_print::of_pair`.
fn main(rt: HostRuntime) -> io::Result<()> {
    let full = asks_full(&rt);
    let from = if full { 2 } else { 1 };
    let Some(ask) = text_args::asked(&rt, from, false) else {
        return text_print::usage(
            &mut rt.stderr(),
            b"usage: log [--full] [PROG_SIZE A B], both images on standard input\n",
        );
    };
    text_print::of_pair::<ROOM, _, _, _, _>(
        &mut rt.stdin(),
        &mut rt.stdout(),
        &mut rt.stderr(),
        |pair, text| { text_log::lfs_dir_log(full, ask.prog_size, ask.numbers, pair, text) },
    )
}
