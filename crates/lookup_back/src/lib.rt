// The walk back over a block's committed log: the tag that ends at an offset and where it stands, then the tag before
// it, and so on to the block's start. The loops of the lookups and of compaction go over it; what a turn does with the
// tag is theirs. A function with a `requires` is for the crates of this repository.
#![tactic(auto)]

ghost use Rattle.std.specs.Prelude.{◌≡◌, ◌+◌, ◌≤◌, length};
ghost use Rattle.format.specs.Back.{back};
ghost use Rattle.lookup_back.specs.Step.{Placed, tag_before};

// "while the offset is at least 4 plus the tag's length": `off` is where the tag ends.
pub fn place(off: usize, tag: u32) -> Option<usize>
    ensures { Placed off tag result }
{
    let size = tag::lfs_tag_dsize(tag) as usize;
    if off < 4 + size {
        return None;
    }
    Some(off - size)
}

// The tag before the one that stands at `at`. "Bit 31 of each earlier tag is cleared."
pub fn tag_before(b: &[u8], at: usize, tag: u32) -> u32
    requires { at + 4 ≤ length b.now }
    ensures { result ≡ tag_before b.now at tag }
{
    (word::within::be32(b, at) ^ tag) % 0x8000_0000
}

// The tags of a log from an offset back, newest first, each with the place where it stands: `tag` is the one that ends
// at `off`.
#[derive(Drop)]
pub struct Back<'a> {
    b: &'a [u8],
    off: usize,
    tag: u32,
    ghost inside: { off ≤ length b.now },
}

impl<'a> Back<'a> {
    ghost use Rattle.lookup_back.specs.Left.{left};

    // From an end and the tag that ends there.
    pub fn new(b: &'a [u8], end: usize, etag: u32) -> Self
        requires { end ≤ length b.now }
        ensures tags { left result ≡ back b.now end etag }
        ensures off { result.off ≡ end }
    {
        Back {
            b,
            off: end,
            tag: etag,
        }
    }
}

impl Iterator for Back<'_> {
    ghost use Rattle.std.specs.Iterator.{at_most};
    ghost use Rattle.lookup_back.specs.Left.{Steps};

    type Item = (usize, u32);

    ghost next_gives = { Steps };

    ghost remaining = { λ s. at_most s.off };

    // A lookup turns here once for each tag on its way, so the step must not stay a call.
    #[inline(always)]
    fn next(&mut self) -> Option<(usize, u32)> {
        let tag = self.tag;
        let at = place(self.off, tag)?;
        self.tag = tag_before(self.b, at, tag);
        self.off = at;
        Some((at, tag))
    }
}
