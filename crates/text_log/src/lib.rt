// The raw log of a metadata pair as text: of each block every tag that its walk meets, where the walk stops and why,
// and how far the block is committed; at last which block answers. It is written to a lent buffer as far as there is
// room; the answer is the length of the whole text. Any bytes may be shown: irregular, torn and foreign pairs too.
#![tactic(auto)]

ghost use Rattle.std.specs.Prelude.{◌≡◌, cond, [], length, drop};
ghost use Rattle.format.specs.Listing.{written_to};
ghost use Rattle.format.specs.RawLog.{data_of, entry_text, check_text, committed_line, block_log, answers_line};
ghost use Rattle.format.specs.RawLog.{is_shown, block_logs, raw_log_of};
ghost use Rattle.text.specs.Put.{Puts};
ghost use Rattle.text_log.specs.Part.{Placed, Reached};
ghost use Rattle.text_log.specs.Events.{texts_from};

mod columns;
mod rows;
mod stop;

use columns::tag_columns;
use fetch_walk::cursor::{Cursor, Seen};
use format::LfsPair;
use rows::{cut_data, full_data};
use stop::stop_text;
use text::Text;

// The data behind the tag at a place.
fn data_of(b: &[u8], place: usize, tag: u32) -> &[u8]
    requires { Placed b.now place tag }
    ensures { result.now ≡ data_of tag (drop place b.now) }
{
    &b[place + 4..place + tag::lfs_tag_dsize(tag) as usize]
}

// An entry: its tag, and its data beside it or below.
#[tactic(auto, unfolding(format::specs::RawLog::entry_text, text::specs::Put::puts_of), using(text::proofs::Joined::puts_append))]
fn entry_text(text: &mut Text, full: bool, b: &[u8], place: usize, tag: u32)
    requires { Placed b.now place tag }
    ensures { Puts text.old text.new (entry_text full place tag (drop place b.now)) }
{
    let data = data_of(b, place, tag);
    tag_columns(text, place as u32, tag);
    cut_data(text, full, data);
    text.puts(b"\n");
    full_data(text, full, place + 4, data);
}

// A check that fits, with its checksum.
#[tactic(auto, unfolding(format::specs::RawLog::check_text, text::specs::Put::puts_of), using(text::proofs::Joined::puts_append))]
fn check_text(text: &mut Text, full: bool, b: &[u8], place: usize, tag: u32, sum: u32)
    requires { Placed b.now place tag }
    ensures { Puts text.old text.new (check_text full place tag sum (drop place b.now)) }
{
    tag_columns(text, place as u32, tag);
    text.puts(b"  checksum ");
    text.hex_word(sum);
    text.puts(b" fits\n");
    full_data(text, full, place + 4, data_of(b, place, tag));
}

// What the walk from a cursor meets, and why it stops, which an iterator would not tell.
fn event_texts(text: &mut Text, full: bool, b: &[u8], from: Cursor)
    requires { Reached b.now from.at 0 }
    ensures { Puts text.old text.new (texts_from full b.now from) }
{
    let mut c = from;
    loop {
        match c.next(b) {
            Seen::Entry(tag, behind) => {
                entry_text(text, full, b, c.at, tag);
                c = behind;
            }
            Seen::Check(sum, behind) => {
                let tag = word::within::be32(b, c.at) ^ c.prev;
                check_text(text, full, b, c.at, tag, sum);
                c = behind;
            }
            Seen::Invalid | Seen::Past => return stop_text(text, b, c),
        }
    }
}

// "where the committed log ends; an end of 4: there is no commit"
#[tactic(auto, unfolding(format::specs::RawLog::committed_line))]
fn committed_line(text: &mut Text, end: u32)
    ensures { Puts text.old text.new (committed_line end) }
{
    if end == 4 {
        return text.puts(b"nothing is committed\n\n");
    }
    text.puts(b"committed up to ");
    text.hex_word(end);
    text.puts(b"\n\n");
}

// A block: its number and revision, what its walk meets, and where its log ends.
fn block_log(text: &mut Text, full: bool, number: u32, b: &[u8])
    requires { Reached b.now 4 0 }
    ensures { Puts text.old text.new (block_log full number b.now) }
{
    let walked = fetch_walk::walk_block(b, 0);
    text.puts(b"block ");
    text.decimal(number);
    text.number_line(b" rev ", word::within::le32(b, 0));
    text.puts(b"off       tag       type name          id  len  data\n");
    event_texts(text, full, b, Cursor::start(b));
    committed_line(text, walked.taken.off as u32);
}

// "Block size 128 to 32,768": whether an input can be two blocks.
#[tactic(auto, unfolding(format::specs::RawLog::is_shown))]
fn is_shown(len: usize) -> bool
    ensures { result ≡ is_shown len }
{
    (len % 2 == 0) & (256 <= len) & (len <= 65_536)
}

// Both blocks.
fn block_logs(text: &mut Text, full: bool, numbers: LfsPair, input: &[u8])
    ensures { Puts text.old text.new
        (cond (is_shown (length input.now)) (block_logs full numbers input.now) []) }
{
    if !is_shown(input.len()) {
        return;
    }
    let (first, second) = input.split_at(input.len() / 2);
    block_log(text, full, numbers.n0, first);
    block_log(text, full, numbers.n1, second);
}

// Which block answers.
#[tactic(auto, unfolding(format::specs::RawLog::answers_line, text::specs::Put::puts_of), using(text::proofs::Joined::puts_append))]
fn answers_line(text: &mut Text, number: u32)
    ensures { Puts text.old text.new (answers_line number) }
{
    text.puts(b"block ");
    text.decimal(number);
    text.puts(b" answers\n");
}

// The raw log of both images, one behind the other, as far as `out` has room; `full`: with all data. The blocks have
// these numbers, and the program size is the one by which fetch judges the pair. No text reaches 2^32 bytes, where
// `text`'s count would wrap.
pub fn lfs_dir_log(
    full: bool,
    prog_size: u32,
    numbers: LfsPair,
    input: &[u8],
    out: &mut [u8],
) -> u32
    ensures value { result ≡ length (raw_log_of full prog_size numbers input.now) }
    ensures out_after { out.new ≡ written_to out.old
        (raw_log_of full prog_size numbers input.now) }
{
    let mut text = Text::new(out);
    block_logs(&mut text, full, numbers, input);
    match text_input::fetch_input(prog_size, numbers, input) {
        Ok(found) => answers_line(&mut text, found.dir.pair.n0),
        Err(r) => text_input::refused(&mut text, r),
    }
    text.len()
}
