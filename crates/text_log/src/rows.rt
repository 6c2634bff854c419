// Data in hex, and as letters where they are letters: its first bytes beside the tag, or all of it in lines below.
ghost use Rattle.std.specs.Prelude.{◌≡◌, ◌^◌, ◌≤◌, length, drop};
ghost use Rattle.format.specs.RawLog.{cell, hex_cells, letter, letters, cells, cut_data, data_line, data_lines};
ghost use Rattle.format.specs.RawLog.{full_data};
ghost use Rattle.text.specs.Put.{Puts};

use text::Text;

// What is shown beside a tag, and in a line below it.
const BESIDE: usize = 8;

const LINE: usize = 16;

// The byte at i in three columns; blank behind the end.
fn cell(text: &mut Text, bytes: &[u8], i: usize)
    ensures { Puts text.old text.new (cell (drop i bytes.now)) }
{
    if bytes.len() <= i {
        return text.puts(b"   ");
    }
    text.hex_byte(bytes[i]);
    text.puts(b" ");
}

// So many places, with the bytes in them.
// By number: the places behind the last byte are shown too, blank.
fn hex_cells(text: &mut Text, places: usize, bytes: &[u8])
    ensures { Puts text.old text.new (hex_cells places bytes.now) }
{
    for i in 0..places {
        cell(text, bytes, i);
    }
}

// A byte as a letter: a dot where it is none.
#[tactic(auto, unfolding(format::specs::RawLog::letter))]
fn letter(b: u8) -> u8
    ensures { result ≡ letter b }
{
    if (0x20 <= b) & (b <= 0x7e) { b } else { 0x2e }
}

fn letters(text: &mut Text, bytes: &[u8])
    ensures { Puts text.old text.new (letters bytes.now) }
{
    for b in bytes {
        text.put(letter(*b));
    }
}

// Hex and letters.
#[tactic(auto, unfolding(format::specs::RawLog::cells, text::specs::Put::puts_of), using(text::proofs::Joined::puts_append))]
fn cells(text: &mut Text, places: usize, bytes: &[u8])
    ensures { Puts text.old text.new (cells places bytes.now) }
{
    hex_cells(text, places, bytes);
    text.puts(b" ");
    letters(text, bytes);
}

// Beside the tag: the first bytes; nothing where the text is full, or where there are none.
#[tactic(auto, unfolding(format::specs::RawLog::cut_data, text::specs::Put::puts_of), using(text::proofs::Joined::puts_append))]
pub fn cut_data(text: &mut Text, full: bool, bytes: &[u8])
    ensures { Puts text.old text.new (cut_data full bytes.now) }
{
    if full | bytes.is_empty() {
        return;
    }
    text.puts(b"  ");
    cells(text, BESIDE, &bytes[..bytes.len().min(BESIDE)]);
}

// A line of the data: the bytes that stand at `place`.
#[tactic(auto, unfolding(format::specs::RawLog::data_line, text::specs::Put::puts_of), using(text::proofs::Joined::puts_append))]
fn data_line(text: &mut Text, place: u32, bytes: &[u8])
    ensures { Puts text.old text.new (data_line place bytes.now) }
{
    text.puts(b"      ");
    text.hex_word(place);
    text.puts(b": ");
    cells(text, LINE, bytes);
    text.puts(b"\n");
}

// All lines of the data, which stand at `place`. By the rest, as its definition: through chunks it would be proved of
// the chunks' list, which no definition has.
fn data_lines(text: &mut Text, place: usize, bytes: &[u8])
    requires place_bound { place ≤ 2 ^ 16 }
    requires bytes_len_bound { length bytes.now ≤ 1_022 }
    ensures { Puts text.old text.new (data_lines 64 place bytes.now) }
{
    let mut at = place;
    let mut rest = bytes;
    while !rest.is_empty() {
        let (line, behind) = rest.split_at(rest.len().min(LINE));
        data_line(text, at as u32, line);
        at += LINE;
        rest = behind;
    }
}

// Below the tag: all of the data, where the text is full.
#[tactic(auto, unfolding(format::specs::RawLog::full_data, text::specs::Put::puts_of))]
pub fn full_data(text: &mut Text, full: bool, place: usize, bytes: &[u8])
    requires place_bound { place ≤ 2 ^ 16 }
    requires bytes_len_bound { length bytes.now ≤ 1_022 }
    ensures { Puts text.old text.new (full_data full place bytes.now) }
{
    if full {
        return data_lines(text, place, bytes);
    }
}
