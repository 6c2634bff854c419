// Why a walk stops, as text: what stands at the cursor that has nothing behind it.
ghost use Rattle.std.specs.Prelude.{◌≡◌, length, drop};
ghost use Rattle.format.specs.RawLog.{stop_line, invalid_stop, check_stop, past_stop, stop_behind};
ghost use Rattle.text.specs.Put.{Puts};
ghost use Rattle.text_log.specs.Part.{Reached, check_whole};

use crate::columns::tag_columns;
use fetch_walk::cursor::Cursor;
use text::Text;

// The offset, and why.
#[tactic(auto, unfolding(format::specs::RawLog::stop_line, text::specs::Put::puts_of), using(text::proofs::Joined::puts_append))]
fn stop_line(text: &mut Text, place: u32, why: &[u8])
    ensures { Puts text.old text.new (stop_line place why.now) }
{
    text.puts(b"stops at ");
    text.hex_word(place);
    text.puts(b": ");
    text.puts(why);
}

// A tag with bit 31 set, and the four bytes that stand there.
fn invalid_stop(text: &mut Text, b: &[u8], place: usize)
    requires { Reached b.now place 4 }
    ensures { Puts text.old text.new (invalid_stop place (drop place b.now)) }
{
    let word = word::within::be32(b, place);
    stop_line(text, place as u32, b"no valid tag, the word there is ");
    text.hex_word(word);
    text.puts(b"\n");
}

// A check whose checksum is another than that of the bytes; `sum` is the checksum before its tag.
fn check_stop(text: &mut Text, b: &[u8], place: usize, tag: u32, sum: u32)
    requires { Reached b.now place 8 }
    ensures { Puts text.old text.new (check_stop place tag sum (drop place b.now)) }
{
    let behind = place + 4;
    let stored = word::within::le32(b, behind);
    let computed = crc::lfs_crc(sum, &b[place..behind]);
    tag_columns(text, place as u32, tag);
    text.puts(b"  checksum ");
    text.hex_word(stored);
    text.puts(b" does not fit, computed ");
    text.hex_word(computed);
    text.puts(b"\n");
    stop_line(text, place as u32, b"the checksum does not fit\n");
}

// An entry that passes the block, or whose reading would.
fn past_stop(text: &mut Text, place: u32, tag: u32)
    ensures { Puts text.old text.new (past_stop place tag) }
{
    tag_columns(text, place, tag);
    text.puts(b"\n");
    stop_line(text, place, b"the entry passes the end of the block\n");
}

// Whether a check stands in so many bytes with its checksum.
fn check_whole(tag: u32, left: usize) -> bool
    ensures { result ≡ check_whole tag left }
{
    let length = tag::lfs_tag_dsize(tag) as usize;
    fetch_walk::cursor::is_check(tag) & (length <= left) & (8 <= left)
}

// "The walk stops on an invalid tag, on an entry passing the block, or on any read past it", or on a check that doesn't
// fit.
pub fn stop_text(text: &mut Text, b: &[u8], c: Cursor)
    requires { Reached b.now c.at 0 }
    ensures { Puts text.old text.new (stop_behind c.at c.prev c.sum (drop c.at b.now)) }
{
    let place = c.at;
    let left = b.len() - place;
    if left < 4 {
        return stop_line(text, place as u32, b"the block ends\n");
    }
    let tag = word::within::be32(b, place) ^ c.prev;
    if 0x8000_0000 <= tag {
        return invalid_stop(text, b, place);
    }
    if check_whole(tag, left) {
        return check_stop(text, b, place, tag, c.sum);
    }
    past_stop(text, place as u32, tag);
}
