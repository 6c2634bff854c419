// The calls' domain: which sizes, block numbers and records a call accepts, and which rule and erased byte. Fetch,
// lookups and the writer make these tests before they read a block. Every function takes any numbers.
#![tactic(auto)]

ghost use Rattle.std.specs.Prelude.{◌≡◌, length};
ghost use Rattle.sizes.specs.Lent.{of};
ghost use Rattle.format.specs.Fetch.{geometry_fits, images_fit, pair_fits, too_high};
ghost use Rattle.format.specs.Lookup.{record_fits, block_of};
ghost use Rattle.format.specs.Erased.{erased_fits};
ghost use Rattle.format.specs.Writer.{writes_fit};

use format::{Geometry, LfsMdir, LfsPair};

// "Block size 128 to 32,768; program size 4 to 512; block size a multiple of it."
pub fn geometry_fits(g: Geometry) -> bool
    ensures { result ≡ geometry_fits g }
{
    let prog = g.prog_size;
    let block = g.block_size;
    // first, since it divides below
    if prog < 4 {
        return false;
    }
    (prog <= 512) & (128 <= block) & (block <= 32_768) & (block % prog == 0)
}

// Sizes that fit, and "two images, each exactly one block long".
pub fn images_fit(g: Geometry, len0: usize, len1: usize) -> bool
    ensures { result ≡ images_fit g len0 len1 }
{
    let block_size = g.block_size as usize;
    geometry_fits(g) & (len0 == block_size) & (len1 == block_size)
}

// These, and "two block numbers, not equal".
pub fn pair_fits(g: Geometry, len0: usize, len1: usize, n0: u32, n1: u32) -> bool
    ensures { result ≡ pair_fits g len0 len1 n0 n1 }
{
    images_fit(g, len0, len1) & (n0 != n1)
}

// "block number not below a non-zero block count"
pub fn too_high(block_count: u32, n: u32) -> bool
    ensures { result ≡ too_high block_count n }
{
    (block_count != 0) & (block_count <= n)
}

// A record that a lookup takes, or a refetch: its pair is the two numbers, in either order, and its end does not pass
// the block.
#[tactic(auto, unfolding(format::specs::Lookup::record_fits))]
pub fn record_fits(g: Geometry, len0: usize, len1: usize, n0: u32, n1: u32, dir: LfsMdir) -> bool
    ensures { result ≡ record_fits g len0 len1 n0 n1 dir }
{
    pair_fits(g, len0, len1, n0, n1)
        & util::lfs_pair_issync(dir.pair, LfsPair { n0, n1 })
        & (dir.off <= g.block_size)
}

// A metadata pair, as a call that reads is lent it: the sizes, both images, and their block numbers.
#[derive(Clone, Copy)]
pub struct Pair<'a> {
    pub g: Geometry,
    pub b0: &'a [u8],
    pub b1: &'a [u8],
    pub n0: u32,
    pub n1: u32,
}

impl<'a> Pair<'a> {
    // Its sizes, images and numbers are ones that a call takes.
    pub fn fits(self) -> bool
        ensures { result ≡ of self.entry (λ g b0 b1. pair_fits g (length b0) (length b1)) }
    {
        pair_fits(self.g, self.b0.len(), self.b1.len(), self.n0, self.n1)
    }

    // And the record is one that a lookup takes, or a refetch.
    pub fn takes(self, dir: LfsMdir) -> bool
        ensures { result ≡ of self.entry (λ g b0 b1. record_fits g (length b0) (length b1)) dir }
    {
        record_fits(self.g, self.b0.len(), self.b1.len(), self.n0, self.n1, dir)
    }

    // The block that a record was read from: the image with the record's first number.
    pub fn block_of(self, dir: LfsMdir) -> &'a [u8]
        ensures { result.now ≡ block_of self.entry.b0.now self.entry.b1.now self.entry.n0 dir }
    {
        if dir.pair.n0 == self.n0 {
            self.b0
        } else {
            self.b1
        }
    }
}

// "Any other erased byte is -22."
// A byte and no enum: it is compared with bytes and fills a block, and a call takes any and refuses by -22.
pub fn erased_fits(erased: u8) -> bool
    ensures { result ≡ erased_fits erased }
{
    (erased == 0xff) | (erased == 0x00)
}

// How a call writes: the rule by which the log must be regular is 0 or 1, and the erased byte "0xff or 0x00". Both are
// numbers here and in what calls this: that they fit is one test with the sizes.
pub fn writes_fit(rules: u32, erased: u8) -> bool
    ensures { result ≡ writes_fit rules erased }
{
    (rules <= 1) & erased_fits(erased)
}
