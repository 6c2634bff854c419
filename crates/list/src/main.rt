// Document 01's listing program: both images of a pair on standard input, one behind the other, the text on standard
// output. The program size and the two block numbers may be given as arguments, and behind them the rule, 0 or 1;
// document 01's are 16, 0, 1 and 0. 65,537 bytes are read, so that a longer input is told from one of 65,536.
#![tactic(auto)]

use std::io;

// The buffer has room for every text. An entry of 4 + n bytes shows at most 4 * (4 + n): a byte of a name shows four,
// an empty user attribute of four bytes a line of 16. A slot of its own shows 18, and there are at most 1,023, which by
// littlefs's rule one name may make. So a block of 32,768 bytes shows less than 4 * 32,768 + 18 * 1,023, and the
// record's lines have less than 128 bytes.
const ROOM: usize = 150_000;

// `text_print::of_pair` has what the programs share; the usage is each program's own.
fn main(rt: HostRuntime) -> io::Result<()> {
    let Some(ask) = text_args::asked(&rt, 1, true) else {
        return text_print::usage(
            &mut rt.stderr(),
            b"usage: list [PROG_SIZE A B [RULES]], both images on standard input\n",
        );
    };
    text_print::of_pair::<ROOM, _, _, _, _>(
        &mut rt.stdin(),
        &mut rt.stdout(),
        &mut rt.stderr(),
        |pair, text| {
            text_listing::lfs_dir_list_as(ask.prog_size, ask.numbers, ask.rules, pair, text)
        },
    )
}
