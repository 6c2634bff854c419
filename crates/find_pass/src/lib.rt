// One forward pass over a block's committed log for a name: which slots have it now, one bit for each id, moved as
// slots are made and removed. Fetch has said where the log ends, so nothing is summed again. The functions require that
// the log is known to end there, and are for the crates of this repository.
#![tactic(auto)]

ghost use Rattle.std.specs.Prelude.{◌≡◌, ◌+◌, ◌≤◌, ◌<◌, false, length, take, drop, replicate};
ghost use Rattle.std.specs.Prelude.{Some};
ghost use Rattle.format.specs.Tag.{tag_type3, tag_size};
ghost use Rattle.format.specs.Log.{log};
ghost use Rattle.format.specs.Walk.{body_of};
ghost use Rattle.format.specs.Directory.{act};
ghost use Rattle.format.specs.Find.{is_named, find_in};
ghost use Rattle.commit_regular.specs.Ends.{CommittedTo};
ghost use Rattle.find_set.specs.Set.{has, made, removed, assigned, lowest};
ghost use Rattle.find_pass.specs.Pass.{Keeps, marked, Followable, answered};

use commit_regular::Ruled;
use commit_regular::tags::{Logged, Tags};
use format::types::*;
use format::{Refusal, Rules};

// Whether a name's entry, whose data stand at `from`, has "exactly these bytes and this type".
fn is_named(b: &[u8], from: usize, tag: u32, name: &[u8], kind: u32) -> bool
    requires { from + tag_size tag ≤ length b.now }
    ensures { result ≡ is_named name.now kind
        (Some (record { type = tag_type3 tag; bytes = take (tag_size tag) (drop from b.now) })) }
{
    if tag::lfs_tag_type3(tag) as u32 != kind {
        return false;
    }
    let to = from + tag::lfs_tag_size(tag) as usize;
    &b[from..to] == name
}

// The ids whose slots have the name that is asked for, one bit for each, and whether any slot has had it: as long as
// none has, there is nothing to move.
// No Option of the words: with no name yet all are zero, which `lowest` reads as they are.
#[derive(Drop)]
struct Named {
    set: [u32; 32],
    any: bool,
}

impl Named {
    // None has it yet.
    fn none() -> Self
        ensures set { result.set ≡ replicate 32 0 }
        ensures any { result.any ≡ false }
    {
        Named {
            set: [0; 32],
            any: false,
        }
    }

    // A slot is made at `id`. As `remove`, but for what is done to a set: a function that is handed it would need its
    // law.
    fn make(&mut self, id: u32)
        requires { id < 1_024 }
        ensures { Keeps self.old.set self.old.any self.new.set self.new.any (made id) }
    {
        if self.any {
            find_set::insert(&mut self.set, id);
        }
    }

    // The slot `id` is removed.
    fn remove(&mut self, id: u32)
        requires { id < 1_024 }
        ensures { Keeps self.old.set self.old.any self.new.set self.new.any (removed id) }
    {
        if self.any {
            find_set::remove(&mut self.set, id);
        }
    }

    // The slot `id` gets a name, which is the one that is asked for or another: an old one is forgotten.
    fn name(&mut self, id: u32, is: bool)
        requires { id < 1_024 }
        ensures { Keeps self.old.set self.old.any self.new.set self.new.any (assigned id is) }
    {
        if self.any | is {
            find_set::assign(&mut self.set, id, is);
            self.any = true;
        }
    }

    // What an entry at `at` that passed its rule does to them.
    fn follow(&mut self, b: &[u8], at: usize, tag: u32, wanted: &[u8], kind: u32)
        requires { Followable b.now at tag }
        ensures { Keeps self.old.set self.old.any self.new.set self.new.any
            (marked (is_named wanted.now kind) (act tag (body_of tag (drop at b.now)))) }
    {
        let id = tag::lfs_tag_id(tag) as u32;
        if tag::lfs_tag_type1(tag) == LFS_TYPE_NAME {
            self.name(id, is_named(b, at + 4, tag, wanted, kind));
            return;
        }
        let type3 = tag::lfs_tag_type3(tag);
        if type3 == LFS_TYPE_CREATE {
            self.make(id);
        } else if type3 == LFS_TYPE_DELETE {
            self.remove(id);
        }
    }

    // "the lowest id .. or none"
    fn lowest(&self) -> Result<Option<u32>, Refusal>
        ensures { result ≡ answered (lowest 1_024 0 (has self.now.set)) }
    {
        let id = find_set::first(&self.set);
        if id < 1024 {
            return Ok(Some(id));
        }
        Ok(None)
    }
}

// The pass over the log that ends at `end`, by a rule: the lowest id whose name is the one that is asked for. The rules
// run against the count as in crate `commit_regular`, and the first bad entry or check ends the pass. Never inlined, so
// that the set is not on the stack while fetch runs.
#[inline(never)]
pub fn find_in(
    b: &[u8],
    end: usize,
    rules: Rules,
    wanted: &[u8],
    kind: u32,
) -> Result<Option<u32>, Refusal>
    requires { CommittedTo b.now end }
    ensures { result ≡ find_in rules wanted.now kind (log b.now) }
{
    let mut named = Named::none();
    let mut ruled = Ruled::new(rules);
    for logged in Tags::new(b, end) {
        if !ruled.passes(logged) {
            return Err(Refusal::Irregular);
        }
        if let Logged::Entry(tag, at) = logged {
            named.follow(b, at, tag, wanted, kind);
        }
    }
    named.lowest()
}
