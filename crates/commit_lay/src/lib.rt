// A commit's bytes: laid into a block by single stores, in rising order, as many as may still be made; and summed
// without a store. Any numbers: what would pass the block is not stored, and a part that would pass the buffer is cut
// there.
#![tactic(auto)]

ghost use Rattle.std.specs.Prelude.{◌≡◌, ◌++◌};
ghost use Rattle.format.specs.Word.{to_be32, to_le32};
ghost use Rattle.format.specs.Crc.{crc};
ghost use Rattle.commit_lay.specs.Laid.{laid, put_of, puts_of, body_of, in_buffer_of};

use format::types::REMOVAL;

// Where the next store goes, and how many may still be made.
#[derive(Clone, Copy)]
pub struct Run {
    pub at: usize,
    pub left: u32,
}

// One store.
fn put(b: &mut [u8], run: Run, x: u8) -> Run
    ensures { laid result b.new ≡ put_of (laid run b.old) x }
{
    let at = run.at;
    let left = run.left;
    if left == 0 {
        return run;
    }
    if b.len() <= at {
        return run;
    }
    b[at] = x;
    Run {
        at: at + 1,
        left: left - 1,
    }
}

// Bytes, one after the other.
fn put_all(b: &mut [u8], run: Run, bytes: &[u8]) -> Run
    ensures { laid result b.new ≡ puts_of (laid run b.old) bytes.now }
{
    let mut w = run;
    for byte in bytes {
        w = put(b, w, *byte);
    }
    w
}

// A tag, big-endian. This and the next differ in the library's order of bytes alone, which their names say.
pub fn put_be32(b: &mut [u8], run: Run, word: u32) -> Run
    ensures { laid result b.new ≡ puts_of (laid run b.old) (to_be32 word) }
{
    let bytes = word::be_bytes(word);
    put_all(b, run, &bytes)
}

// A checksum, little-endian.
pub fn put_le32(b: &mut [u8], run: Run, word: u32) -> Run
    ensures { laid result b.new ≡ puts_of (laid run b.old) (to_le32 word) }
{
    let bytes = word::le_bytes(word);
    put_all(b, run, &bytes)
}

// The checksum behind a tag.
pub fn sum_be32(sum: u32, word: u32) -> u32
    ensures { result ≡ crc sum (to_be32 word) }
{
    let bytes = word::be_bytes(word);
    crc::lfs_crc(sum, &bytes)
}

// Whether an entry's data are in the buffer: "a removal's offset isn't read".
// The data are a buffer, an offset and a length, here and below, as the definition `body_of` takes any.
pub fn in_buffer(dat: &[u8], off: u32, len: u32) -> bool
    ensures { result ≡ in_buffer_of dat.now off len }
{
    let end = (off as usize) + (len as usize);
    (len == REMOVAL) | (end <= dat.len())
}

// The data of an entry: none for a removal.
fn body<'a>(dat: &'a [u8], off: u32, len: u32) -> &'a [u8]
    ensures { result.now ≡ body_of dat.now off len }
{
    if len == REMOVAL {
        return &[];
    }
    let from = dat.len().min(off as usize);
    let size = (dat.len() - from).min(len as usize);
    &dat[from..from + size]
}

// An entry: its tag as it is stored, and its data.
pub fn put_entry(b: &mut [u8], run: Run, word: u32, dat: &[u8], off: u32, len: u32) -> Run
    ensures { laid result b.new ≡ puts_of (laid run b.old)
        (to_be32 word ++ body_of dat.now off len) }
{
    let w = put_be32(b, run, word);
    put_all(b, w, body(dat, off, len))
}

// The checksum behind an entry.
pub fn sum_entry(sum: u32, word: u32, dat: &[u8], off: u32, len: u32) -> u32
    ensures { result ≡ crc sum (to_be32 word ++ body_of dat.now off len) }
{
    crc::lfs_crc(sum_be32(sum, word), body(dat, off, len))
}
