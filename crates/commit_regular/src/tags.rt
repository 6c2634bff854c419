// The tags of a block's committed log, oldest first: what every pass over a log reads in the same way. Fetch has
// verified the log and said where it ends, so nothing is summed again.
ghost use Rattle.std.specs.Prelude.{◌≡◌};
ghost use Rattle.commit_regular.specs.Ends.{CommittedTo, Onwards};

use fetch_walk::cursor;
use format::types::FIRST_PREV;

// What stands in a log.
#[derive(Clone, Copy)]
pub enum Logged {
    // an entry: its tag, and where that stands
    Entry(u32, usize),
    // a commit check: its tag
    Check(u32),
}

// The tags from `at` on, behind the tag `prev`, of a log that is known to end at `end`.
#[derive(Drop)]
pub struct Tags<'a> {
    b: &'a [u8],
    end: usize,
    at: usize,
    prev: u32,
    ghost onwards: { ∥ Onwards b.now at prev end ∥₁ },
}

impl<'a> Tags<'a> {
    ghost use Rattle.commit_regular.specs.Left.{Starts};

    // All tags of the log.
    pub fn new(b: &'a [u8], end: usize) -> Self
        requires { CommittedTo b.now end }
        ensures { Starts b.now 4 FIRST_PREV end result }
    {
        Self::behind(b, 4, FIRST_PREV, end)
    }

    // Those from a place on, behind the tag `prev`.
    pub fn behind(b: &'a [u8], from: usize, prev: u32, end: usize) -> Self
        requires { Onwards b.now from prev end }
        ensures { Starts b.now from prev end result }
    {
        Tags {
            b,
            end,
            at: from,
            prev,
        }
    }
}

impl Iterator for Tags<'_> {
    ghost use Rattle.std.specs.Prelude.{◌-◌};
    ghost use Rattle.std.specs.Iterator.{at_most};
    ghost use Rattle.commit_regular.specs.Left.{Steps};

    type Item = Logged;

    ghost next_gives = { Steps };

    ghost remaining = { λ s. at_most (s.end - s.at) };

    // Each pass turns here once for each tag, so the step must not stay a call.
    #[inline(always)]
    fn next(&mut self) -> Option<Logged> {
        if self.end <= self.at {
            return None;
        }
        let at = self.at;
        let tag = word::within::be32(self.b, at) ^ self.prev;
        self.at = at + tag::lfs_tag_dsize(tag) as usize;
        if cursor::is_check(tag) {
            self.prev = cursor::flipped(tag);
            return Some(Logged::Check(tag));
        }
        self.prev = tag;
        Some(Logged::Entry(tag, at))
    }
}
