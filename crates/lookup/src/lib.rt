// Lookups in a metadata pair: traverse.rs lfs_dir_getslice and lfs_dir_get, fetch.rs lfs_dir_getinfo and
// lfs_dir_getgstate. What the Rust reads through `lfs` is here the two images with their numbers, the record that fetch
// gave, and the global state on disk. Any bytes, numbers and records are answered; a refusal alters nothing.
#![tactic(auto)]

ghost use Rattle.std.specs.Prelude.{◌≡◌};
ghost use Rattle.format.specs.Lookup.{getslice_of, getslice_buffer, get_of, get_buffer, getgstate_of, getgstate_state};
ghost use Rattle.format.specs.Lookup.{getinfo_of};
ghost use Rattle.sizes.specs.Lent.{of};

use format::types::{LONGEST_BUFFER, NO_SLOT};
use format::{Found, LfsGstate, LfsInfo, LfsMdir, Refusal};
use sizes::Pair;

// an info from a block; for the crates of this repository, some functions ask for an end inside it
pub mod info;
mod moved;

// Per lfs.c lfs_dir_getslice: the entry's bytes from an offset on, and zeros in the rest of the buffer.
pub fn lfs_dir_getslice(
    pair: Pair,
    dir: LfsMdir,
    gdisk: LfsGstate,
    gmask: u32,
    gtag: u32,
    goff: u32,
    buffer: &mut [u8],
) -> Result<Found, Refusal>
    ensures value { result ≡ of pair.entry getslice_of dir gdisk gmask gtag goff
        buffer.old }
    ensures buffer_after { buffer.new ≡ of pair.entry getslice_buffer dir gdisk gmask
        gtag goff buffer.old }
{
    let fits = pair.takes(dir);
    if !(fits & (buffer.len() <= LONGEST_BUFFER)) {
        return Err(Refusal::Invalid);
    }
    let b = pair.block_of(dir);
    lookup_search::slice::read(b, dir, gdisk, gmask, gtag, goff, buffer)
}

// Per lfs.c lfs_dir_get: as many bytes as the key's size field says, and the buffer behind them left alone.
pub fn lfs_dir_get(
    pair: Pair,
    dir: LfsMdir,
    gdisk: LfsGstate,
    gmask: u32,
    gtag: u32,
    buffer: &mut [u8],
) -> Result<Found, Refusal>
    ensures value { result ≡ of pair.entry get_of dir gdisk gmask gtag
        buffer.old }
    ensures buffer_after { buffer.new ≡ of pair.entry get_buffer dir gdisk gmask gtag
        buffer.old }
{
    let size = tag::lfs_tag_size(gtag) as usize;
    if buffer.len() < size {
        return Err(Refusal::Invalid);
    }
    if LONGEST_BUFFER < buffer.len() {
        return Err(Refusal::Invalid);
    }
    lfs_dir_getslice(pair, dir, gdisk, gmask, gtag, 0, &mut buffer[..size])
}

// Per lfs.c lfs_dir_getinfo. The longest name read is a parameter, and the info comes back by value.
pub fn lfs_dir_getinfo(
    pair: Pair,
    dir: LfsMdir,
    gdisk: LfsGstate,
    name_max: u32,
    id: u32,
) -> Result<LfsInfo, Refusal>
    ensures { result ≡ of pair.entry getinfo_of dir gdisk name_max id }
{
    let fits = pair.takes(dir);
    if !(fits & (1 <= name_max) & (name_max <= 255) & (id <= NO_SLOT)) {
        return Err(Refusal::Invalid);
    }
    if id == NO_SLOT {
        return Ok(info::root());
    }
    let b = pair.block_of(dir);
    info::read(b, dir, gdisk, name_max, id)
}

// Per lfs.c lfs_dir_getgstate: the move state of a pair XORed into a lent state, where it stands.
pub fn lfs_dir_getgstate(
    pair: Pair,
    dir: LfsMdir,
    gdisk: LfsGstate,
    gstate: &mut LfsGstate,
) -> Result<(), Refusal>
    ensures { (result ≡ of pair.entry getgstate_of dir gdisk)
        × (gstate.new ≡ of pair.entry getgstate_state dir gdisk
        gstate.old) }
{
    if !pair.takes(dir) {
        return Err(Refusal::Invalid);
    }
    let b = pair.block_of(dir);
    moved::read(b, dir, gdisk, gstate)
}
