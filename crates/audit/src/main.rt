// The audit as a program: both images of a pair on standard input, one behind the other, and the arguments, as the
// program `list` takes them; the text on standard output.
#![tactic(auto)]

use std::io;

// The buffer has room for every text. A slot with a line has a struct of one byte or more, five bytes at least, and its
// line without the name has at most 24; or a deadline, four bytes at least, and its line at most 23; or, where that
// can't be read, both, nine bytes at least, and its line at most 35. A byte of a name shows at most four. So a line has
// at most seven bytes more than four for each byte of its slot, of at most 1,023 slots: a block of 32,768 bytes shows
// at most 4 * 32,768 + 7 * 1,023, and the three lines behind have at most 89 bytes.
// The usage and the call are this program's own; what the programs share is `text_print::of_pair`.
const ROOM: usize = 138_400;

fn main(rt: HostRuntime) -> io::Result<()> {
    let Some(ask) = text_args::asked(&rt, 1, true) else {
        return text_print::usage(
            &mut rt.stderr(),
            b"usage: audit [PROG_SIZE A B [RULES]], both images on standard input\n",
        );
    };
    text_print::of_pair::<ROOM, _, _, _, _>(
        &mut rt.stdin(),
        &mut rt.stdout(),
        &mut rt.stderr(),
        |pair, text| {
            text_audit::lfs_dir_audit_as(ask.prog_size, ask.numbers, ask.rules, pair, text)
        },
    )
}
