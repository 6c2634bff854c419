// A text on standard output, for the programs that show one, what such a program reads, and how it is used.
#![tactic(auto)]

ghost use Rattle.std.specs.Prelude.{◌≡◌, ℕ, IfOk, OnOk, ◌<◌, ◌≤◌, ◌^◌, length, leb, take};
ghost use Rattle.std.specs.Io.{ReadsAtMost};
ghost use Rattle.std.specs.Io.KnownBytes.{Appends, Consumes, Keeps};

use std::io;
use std::io::{Read, Write};

// A text of n bytes, or nothing of it where the buffer had no room for all: whether it had.
pub fn whole<O: Write, E: Write>(
    out: &mut O,
    err: &mut E,
    text: &[u8],
    n: usize,
) -> io::Result<bool>
    ensures answer { IfOk result (λ shown. shown ≡ leb n (length text.now)) }
    ensures shown { OnOk result (n ≤ length text.now →
        Appends (O.contents out.old) (O.contents out.new) (take n text.now)) }
    ensures nothing { length text.now < n → Keeps (O.contents out.old) (O.contents out.new) }
{
    if text.len() < n {
        err.write_all(b"the text is longer than the program's buffer\n")?;
        return Ok(false);
    }
    out.write_all(&text[..n])?;
    Ok(true)
}

// How the program is used, for arguments that it does not understand: on standard error, so that nothing is taken for a
// text.
pub fn usage<E: Write>(err: &mut E, line: &[u8]) -> io::Result<()>
    ensures { OnOk result (Appends (E.contents err.old) (E.contents err.new) line.now) }
{
    err.write_all(line)
}

// What there is to read, as far as the buffer has room: how many bytes it put at the start of it. Reads may be short,
// so there is nothing to count through; read_exact refuses a shorter input.
pub fn read_full<R: Read>(reader: &mut R, buf: &mut [u8]) -> io::Result<usize>
    ensures bound { ReadsAtMost result buf.new }
    ensures bytes { IfOk result (λ n. Consumes (R.remaining reader.old) (R.remaining reader.new) (take n buf.new)) }
{
    let mut done = 0;
    while done < buf.len() {
        let n = reader.read(&mut buf[done..])?;
        if n == 0 {
            break;
        }
        done += n;
    }
    Ok(done)
}

// The text that `text_of` makes of an input, in the room for it, shown whole or not at all. A function of its own,
// behind the read: so long an array is zeroed with the frame that it stands in, and then once more where it is made,
// unless the two are next to each other.
fn show<const ROOM: usize, O: Write, E: Write, F: FnOnce(&[u8], &mut [u8]) -> u32>(
    out: &mut O,
    err: &mut E,
    input: &[u8],
    text_of: F,
) -> io::Result<()>
    requires room { ROOM < 2 ^ 63 }
    requires callable { F.IsAlwaysCallable text_of }
    ensures { OnOk result ((room : _) × (n : ℕ) × (text : _) × F.post text_of input.entry room n text
        × (n ≤ ROOM → Appends (O.contents out.old) (O.contents out.new) (take n text.now))
        × (ROOM < n → Keeps (O.contents out.old) (O.contents out.new))) }
{
    let mut text = [0u8; ROOM];
    let n = text_of(input, &mut text);
    whole(out, err, &text, n as usize)?;
    Ok(())
}

// What a program that shows a text of a pair does: both images are on its input, one behind the other, of which 65,537
// bytes are read, so that a longer input is told from one of 65,536; and the text that `text_of` makes of them goes to
// its output. `ROOM` is the room for it, and `text_of` answers how much it would take.
pub fn of_pair<const ROOM: usize, R: Read, O: Write, E: Write, F: FnOnce(&[u8], &mut [u8]) -> u32>(
    reader: &mut R,
    out: &mut O,
    err: &mut E,
    text_of: F,
) -> io::Result<()>
    requires room { ROOM < 2 ^ 63 }
    requires callable { F.IsAlwaysCallable text_of }
    ensures { OnOk result ((input : _) × (room : _) × (n : ℕ) × (text : _) × F.post text_of input room n text
        × Consumes (R.remaining reader.old) (R.remaining reader.new) input.now
        × (n ≤ ROOM → Appends (O.contents out.old) (O.contents out.new) (take n text.now))
        × (ROOM < n → Keeps (O.contents out.old) (O.contents out.new))) }
{
    let mut pair = [0u8; 65_537];
    let read = read_full(reader, &mut pair)?;
    show::<ROOM, _, _, _>(out, err, &pair[..read], text_of)
}
