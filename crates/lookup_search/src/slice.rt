// The slice of an entry: its bytes from an offset on, into a lent buffer. The block is one that a record was read from:
// its end is inside.
ghost use Rattle.std.specs.Prelude.{◌≡◌, ◌≤◌, length};
ghost use Rattle.format.specs.Lookup.{slice_answer, slice_buffer, searched};

use format::{Found, LfsGstate, LfsMdir, Refusal};

// The slice of an entry. What it reads may run into the next entry, and not past the block. The entry is the answer as
// it is, whatever the offset and the buffer.
pub fn read_at(b: &[u8], e: Found, goff: u32, buffer: &mut [u8]) -> Result<Found, Refusal>
    requires { 4 ≤ e.length }
    ensures value { result ≡ slice_answer b.now goff (length buffer.old) (Some e) }
    ensures buffer_after { buffer.new ≡ slice_buffer b.now goff buffer.old (Some e) }
{
    let n = buffer.len().min((e.length - 4) as usize);
    let from = e.off as usize + goff as usize;
    if b.len() < from + n {
        return Err(Refusal::Corrupt);
    }
    buffer[..n].copy_from_slice(&b[from..from + n]);
    buffer[n..].fill(0);
    Ok(e)
}

// The slice of the newest entry.
pub fn read(
    b: &[u8],
    dir: LfsMdir,
    gdisk: LfsGstate,
    gmask: u32,
    gtag: u32,
    goff: u32,
    buffer: &mut [u8],
) -> Result<Found, Refusal>
    requires { dir.off ≤ length b.now }
    ensures value { result ≡ slice_answer b.now goff (length buffer.old)
        (searched b.now dir gdisk gmask gtag) }
    ensures buffer_after { buffer.new ≡ slice_buffer b.now goff buffer.old
        (searched b.now dir gdisk gmask gtag) }
{
    match crate::newest(b, dir, gdisk, gmask, gtag) {
        None => Err(Refusal::NoEntry),
        Some(e) => read_at(b, e, goff, buffer),
    }
}
