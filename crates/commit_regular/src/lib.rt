// Whether the log of a block is regular, by document 01's rule or by littlefs's: one pass over its tags, the rules run
// against the count that the entries leave. Fetch has verified the log and said where it ends, so nothing is summed
// again. `log_regular` requires that the log is known to end there and is for the crates of this repository, which have
// fetched from the block: littlefs has no such call, and none of ours to C is made of it alone.
#![tactic(auto)]

ghost use Rattle.std.specs.Prelude.{◌≡◌};
ghost use Rattle.format.specs.Tag.{tag_id, tag_size};
ghost use Rattle.format.specs.Log.{log};
ghost use Rattle.format.specs.Regular.{Regular, count_raised};
ghost use Rattle.commit_rules.specs.Rules.{rule_as, passed_by};
ghost use Rattle.commit_regular.specs.Ends.{CommittedTo};

use commit_rules::Rule;
use format::Rules;

pub mod tags;

use tags::{Logged, Tags};

// The count behind an entry, or that it is bad, where the count is `count` before it and names may make slots or not.
#[inline(always)]
fn entered(rule: Rule, grows: bool, count: u32, tag: u32) -> Option<u32>
    ensures { result ≡ passed_by (rule_as rule) (count_raised grows (rule_as rule) count (tag_id tag)) (tag_id tag)
        (tag_size tag) }
{
    let id = tag::lfs_tag_id(tag) as u32;
    let raised = commit_rules::raised(rule, grows, count, id);
    commit_rules::count_behind(rule, raised, id, tag::lfs_tag_size(tag))
}

// The rules as they run over a log: the count that its entries leave so far, and whether names may still make slots.
// No Option: the count goes on whether or not names may still make slots.
#[derive(Clone, Copy)]
pub struct Ruled {
    count: u32,
    grows: bool,
}

impl Ruled {
    ghost use Rattle.std.specs.Prelude.{if◌then◌else◌};
    ghost use Rattle.commit_regular.specs.Ruled.{at_start, good, behind};

    pub fn new(rules: Rules) -> Self
        ensures { result ≡ at_start rules }
    {
        Ruled {
            count: 0,
            grows: commit_rules::grows(rules),
        }
    }

    // Whether what the log has next is good where it stands, "every check tag's size is 4 to 1,022" too; if so, the
    // rules then stand behind it. With two callers it would stay a call, which costs a find a tenth of its time.
    #[inline(always)]
    pub fn passes(&mut self, logged: Logged) -> bool
        ensures good { result ≡ good self.old logged }
        ensures self_after { self.new ≡ (if result then behind self.old logged else self.old) }
    {
        match logged {
            Logged::Check(tag) => commit_rules::check_fits(tag::lfs_tag_size(tag)),
            Logged::Entry(tag, _) => {
                let rule = commit_rules::rule_of(true, tag::lfs_tag_type3(tag));
                let Some(count) = entered(rule, self.grows, self.count, tag) else {
                    return false;
                };
                self.count = count;
                self.grows = commit_rules::grows_after(rule, self.grows);
                true
            }
        }
    }
}

// Whether the committed log of a block, which ends at `end`, is regular by a rule: every check and every entry is good
// where it stands. All that is passed over is committed, so the first bad one decides.
pub fn log_regular(b: &[u8], end: usize, rules: Rules) -> bool
    requires { CommittedTo b.now end }
    ensures { result ≡ Regular rules (log b.now) }
{
    let mut ruled = Ruled::new(rules);
    for logged in Tags::new(b, end) {
        if !ruled.passes(logged) {
            return false;
        }
    }
    true
}
