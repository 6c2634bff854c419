// A lent volume of equal blocks that fits its geometry: its blocks, and a pair that is fetched in it. Document 02 has
// it first in L9: "a lent volume of equal blocks (empty or not whole blocks is -22, here and below)".
#![tactic(auto)]

ghost use Rattle.std.specs.Prelude.{◌≡◌, true, ◌<◌};
ghost use Rattle.format.specs.Volume.{volume_fits, blocks_in, block_in, fetch_in};

use format::{Fetched, Geometry, LfsPair, Refusal};
use sizes::Pair;

// Sizes that fit, and "empty or not whole blocks is -22".
pub fn volume_fits(g: Geometry, vol: &[u8]) -> bool
    ensures { result ≡ volume_fits g vol.now }
{
    // first, since it divides below
    if !sizes::geometry_fits(g) {
        return false;
    }
    (vol.len() != 0) & (vol.len() % (g.block_size as usize) == 0)
}

#[derive(Clone, Copy)]
pub struct Volume<'a> {
    g: Geometry,
    bytes: &'a [u8],
    pub ghost fits: { volume_fits g bytes.now ≡ true },
}

impl<'a> Volume<'a> {
    ghost use Rattle.volume.specs.Lent.{Lends};

    // The volume, where it fits.
    pub fn new(g: Geometry, bytes: &'a [u8]) -> Result<Volume<'a>, Refusal>
        ensures { Lends g bytes.now result }
    {
        if !volume_fits(g, bytes) {
            return Err(Refusal::Invalid);
        }
        Ok(Volume { g, bytes })
    }

    // The block n of a volume that has it.
    pub fn block(self, n: u32) -> &'a [u8]
        requires { n < blocks_in self.g self.bytes.now }
        ensures { result.now ≡ block_in self.entry.g self.entry.bytes.now n }
    {
        let size = self.g.block_size as usize;
        let from = n as usize * size;
        let to = from + size;
        &self.bytes[from..to]
    }

    // Fetch in a volume: "-22 for a pair of equal numbers, -84 outside the volume", and what fetch answers for the two
    // blocks. No block count is handed on: both numbers were compared with the volume's own, which may pass 32 bits.
    pub fn fetch(self, pair: LfsPair) -> Result<Fetched, Refusal>
        ensures { result ≡ fetch_in self.entry.g self.entry.bytes.now pair }
    {
        let n0 = pair.n0;
        let n1 = pair.n1;
        if n0 == n1 {
            return Err(Refusal::Invalid);
        }
        let blocks = self.bytes.len() / (self.g.block_size as usize);
        if blocks <= n0 as usize {
            return Err(Refusal::Corrupt);
        }
        if blocks <= n1 as usize {
            return Err(Refusal::Corrupt);
        }
        let b0 = self.block(n0);
        let b1 = self.block(n1);
        fetch::lfs_dir_fetch(
            Pair {
                g: self.g,
                b0,
                b1,
                n0,
                n1,
            },
            0,
            0,
        )
    }
}
