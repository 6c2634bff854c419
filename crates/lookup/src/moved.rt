// The move state of a pair, XORed into a global state.
ghost use Rattle.std.specs.Prelude.{◌≡◌, ◌≤◌, length, Some};
ghost use Rattle.format.specs.Lookup.{gstate_in, move_mask, move_key, move_answer, move_state, searched};

use format::types::{LFS_TYPE_MOVESTATE, TYPE3_MASK};
use format::{Found, LfsGstate, LfsMdir, LfsPair, Refusal};

// The three words of a state, little-endian: what the Rust has by a pointer cast and lfs_gstate_fromle32.
fn gstate_in(d: &[u8]) -> LfsGstate
    requires { 12 ≤ length d.now }
    ensures { result ≡ gstate_in d.now }
{
    LfsGstate {
        tag: word::within::le32(d, 0),
        pair: LfsPair {
            n0: word::within::le32(d, 4),
            n1: word::within::le32(d, 8),
        },
    }
}

// The state takes in the move state that stands in the entry.
fn xor_at(b: &[u8], e: Found, gstate: &mut LfsGstate) -> Result<(), Refusal>
    requires { 4 ≤ e.length }
    ensures { (result ≡ move_answer b.now (Some e))
        × (gstate.new ≡ move_state b.now gstate.old (Some e)) }
{
    let mut d = [0u8; 12];
    lookup_search::slice::read_at(b, e, 0, &mut d)?;
    let found = gstate_in(&d);
    gstate::lfs_gstate_xor(gstate, &found);
    Ok(())
}

// The same of the newest move state; with none, all stays.
pub fn read(b: &[u8], dir: LfsMdir, gdisk: LfsGstate, gstate: &mut LfsGstate) -> Result<(), Refusal>
    requires { dir.off ≤ length b.now }
    ensures { (result ≡ move_answer b.now (searched b.now dir gdisk move_mask move_key))
        × (gstate.new ≡ move_state b.now gstate.old (searched b.now dir gdisk move_mask move_key)) }
{
    let gmask = tag::lfs_mktag(TYPE3_MASK, 0, 0);
    let gtag = tag::lfs_mktag(LFS_TYPE_MOVESTATE as u32, 0, 12);
    match lookup_search::newest(b, dir, gdisk, gmask, gtag) {
        None => Ok(()),
        Some(e) => xor_at(b, e, gstate),
    }
}
