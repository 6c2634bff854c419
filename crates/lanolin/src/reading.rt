// Reading for C callers: fetch, the refetch from a record's end, lookups, and a slot by its name. Each export hands its
// numbers, slices and records to the call of the same name.
ghost use Rattle.std.specs.Prelude.{◌≡◌};
ghost use Rattle.format.specs.Answer.{result_number};
ghost use Rattle.format.specs.Fetch.{fetch_of};
ghost use Rattle.format.specs.Refetch.{refetch_of};
ghost use Rattle.format.specs.Find.{find_of};
ghost use Rattle.format.specs.Lookup.{getslice_of, getslice_buffer, get_of, get_buffer, getinfo_of, getgstate_of};
ghost use Rattle.format.specs.Lookup.{getgstate_state};
ghost use Rattle.lanolin_answers.specs.Values.{fetched_out, got_out, info_out, named_out};

use format::{Geometry, LfsGstate, LfsMdir};
use lanolin_answers::{FetchedOut, GotOut, InfoOut, NamedOut, altered_out, fetched_out};
use sizes::Pair;

#[unsafe(no_mangle)]
pub extern "C" fn lanolin_fetch(
    g: Geometry,
    b0: &[u8],
    b1: &[u8],
    n0: u32,
    n1: u32,
    block_count: u32,
    seed: u32,
) -> FetchedOut
    ensures { result ≡ fetched_out seed (fetch_of g b0.now b1.now n0 n1 block_count seed) }
{
    fetched_out(
        seed,
        fetch::lfs_dir_fetch(Pair { g, b0, b1, n0, n1 }, block_count, seed),
    )
}

#[unsafe(no_mangle)]
pub extern "C" fn lanolin_refetch(
    g: Geometry,
    b0: &[u8],
    b1: &[u8],
    n0: u32,
    n1: u32,
    block_count: u32,
    seed: u32,
    dir: LfsMdir,
) -> FetchedOut
    ensures { result ≡ fetched_out seed (refetch_of g b0.now b1.now n0 n1 block_count seed
        dir) }
{
    fetched_out(
        seed,
        fetch::lfs_dir_refetch(Pair { g, b0, b1, n0, n1 }, block_count, seed, dir),
    )
}

// The entry's tag, length and place.
#[unsafe(no_mangle)]
pub extern "C" fn lanolin_getslice(
    g: Geometry,
    b0: &[u8],
    b1: &[u8],
    n0: u32,
    n1: u32,
    dir: LfsMdir,
    gdisk: LfsGstate,
    gmask: u32,
    gtag: u32,
    goff: u32,
    buffer: &mut [u8],
) -> GotOut
    ensures value { result ≡ got_out (getslice_of g b0.now b1.now n0 n1 dir gdisk gmask gtag goff
        buffer.old) }
    ensures buffer_after { buffer.new ≡ getslice_buffer g b0.now b1.now n0 n1 dir gdisk gmask
        gtag goff buffer.old }
{
    GotOut::from(lookup::lfs_dir_getslice(
        Pair { g, b0, b1, n0, n1 },
        dir,
        gdisk,
        gmask,
        gtag,
        goff,
        buffer,
    ))
}

#[unsafe(no_mangle)]
pub extern "C" fn lanolin_get(
    g: Geometry,
    b0: &[u8],
    b1: &[u8],
    n0: u32,
    n1: u32,
    dir: LfsMdir,
    gdisk: LfsGstate,
    gmask: u32,
    gtag: u32,
    buffer: &mut [u8],
) -> GotOut
    ensures value { result ≡ got_out (get_of g b0.now b1.now n0 n1 dir gdisk gmask gtag
        buffer.old) }
    ensures buffer_after { buffer.new ≡ get_buffer g b0.now b1.now n0 n1 dir gdisk gmask gtag
        buffer.old }
{
    GotOut::from(lookup::lfs_dir_get(Pair { g, b0, b1, n0, n1 }, dir, gdisk, gmask, gtag, buffer))
}

#[unsafe(no_mangle)]
pub extern "C" fn lanolin_getinfo(
    g: Geometry,
    b0: &[u8],
    b1: &[u8],
    n0: u32,
    n1: u32,
    dir: LfsMdir,
    gdisk: LfsGstate,
    name_max: u32,
    id: u32,
) -> InfoOut
    ensures { result ≡ info_out (getinfo_of g b0.now b1.now n0 n1 dir gdisk name_max id) }
{
    InfoOut::from(lookup::lfs_dir_getinfo(Pair { g, b0, b1, n0, n1 }, dir, gdisk, name_max, id))
}

// The state is handed on, and altered where it stands.
#[unsafe(no_mangle)]
pub extern "C" fn lanolin_getgstate(
    g: Geometry,
    b0: &[u8],
    b1: &[u8],
    n0: u32,
    n1: u32,
    dir: LfsMdir,
    gdisk: LfsGstate,
    gstate: &mut LfsGstate,
) -> i32
    ensures { (result ≡ result_number (getgstate_of g b0.now b1.now n0 n1 dir gdisk))
        × (gstate.new ≡ getgstate_state g b0.now b1.now n0 n1 dir gdisk
        gstate.old) }
{
    altered_out(lookup::lfs_dir_getgstate(Pair { g, b0, b1, n0, n1 }, dir, gdisk, gstate))
}

// The lowest id whose name has these bytes and this type.
#[unsafe(no_mangle)]
pub extern "C" fn lanolin_find(
    g: Geometry,
    b0: &[u8],
    b1: &[u8],
    n0: u32,
    n1: u32,
    block_count: u32,
    seed: u32,
    rules: u32,
    name: &[u8],
    type_: u32,
) -> NamedOut
    ensures { result ≡ named_out (find_of g b0.now b1.now n0 n1 block_count seed rules
        name.now type_) }
{
    NamedOut::from(find_name::lfs_dir_find(
        Pair { g, b0, b1, n0, n1 },
        block_count,
        seed,
        rules,
        name,
        type_,
    ))
}
