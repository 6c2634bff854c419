// The writer's rules for entries, as a count runs past them: the same functions for the entries of a commit and for
// those of a log, where by littlefs's rule a name may make slots. Any numbers.
#![tactic(auto)]

ghost use Rattle.std.specs.Prelude.{◌≡◌, ◌^◌, ◌<◌};
ghost use Rattle.format.specs.Regular.{rule_of, rule_holds, between, count_after, grows, grows_after, count_raised};
ghost use Rattle.commit_rules.specs.Rules.{rule_as, passed_by, counted_by};

use format::Rules;
use format::types::*;

// Which rule a type falls under. `Bad` is a case and no `None`, as in the definition `rule_of`: it has an answer of its
// own to each question below.
#[derive(Clone, Copy, Debug, PartialEq, Eq)]
pub enum Rule {
    Create,
    Delete,
    Name,
    Inlined,
    Eight,
    Attribute,
    Tail,
    Move,
    Forward,
    Bad,
}

// The rule of a type. `logged`: in a log superblock names and forward checks are allowed, which are bad in a commit.
pub fn rule_of(logged: bool, kind: u16) -> Rule
    ensures { rule_as result ≡ rule_of logged kind }
{
    match kind {
        LFS_TYPE_CREATE => Rule::Create,
        LFS_TYPE_DELETE => Rule::Delete,
        LFS_TYPE_REG | LFS_TYPE_DIR => Rule::Name,
        LFS_TYPE_SUPERBLOCK => { if logged { Rule::Name } else { Rule::Bad } }
        LFS_TYPE_INLINESTRUCT => Rule::Inlined,
        LFS_TYPE_DIRSTRUCT | LFS_TYPE_CTZSTRUCT => Rule::Eight,
        LFS_TYPE_USERATTR..=LAST_USERATTR => Rule::Attribute,
        LFS_TYPE_SOFTTAIL | LFS_TYPE_HARDTAIL => Rule::Tail,
        LFS_TYPE_MOVESTATE => Rule::Move,
        LFS_TYPE_FCRC => { if logged { Rule::Forward } else { Rule::Bad } }
        _ => Rule::Bad,
    }
}

// Whether an entry passes its rule at a count.
fn rule_holds(rule: Rule, count: u32, id: u32, size: u32) -> bool
    ensures { result ≡ rule_holds (rule_as rule) count id size }
{
    match rule {
        Rule::Create => (id <= count) & (count <= 1022) & (size == 0),
        Rule::Delete => (id < count) & (size == 0),
        Rule::Name => (id < count) & ((1 <= size) & (size <= LFS_ATTR_MAX)),
        Rule::Inlined => (id < count) & (size <= LFS_ATTR_MAX),
        Rule::Eight => (id < count) & (size == 8),
        Rule::Attribute => (id < count) & (size <= REMOVAL),
        Rule::Tail => (id == NO_SLOT) & (size == 8),
        Rule::Move => (id == NO_SLOT) & (size == 12),
        Rule::Forward => (id == NO_SLOT) & (size == 8),
        Rule::Bad => false,
    }
}

// "Entries run against a count c": a create adds one, a delete takes one away.
fn count_after(rule: Rule, count: u32) -> u32
    requires { count_after (rule_as rule) count < 2 ^ 32 }
    ensures { result ≡ count_after (rule_as rule) count }
{
    match rule {
        Rule::Create => count + 1,
        Rule::Delete => count.saturating_sub(1),
        _ => count,
    }
}

// littlefs's rule, as long as `grows`: "a name .. with an id at or above the count, and at most 1,022, first raises the
// count to id + 1".
pub fn raised(rule: Rule, grows: bool, count: u32, id: u32) -> u32
    ensures { result ≡ count_raised grows (rule_as rule) count id }
{
    match rule {
        Rule::Name => {
            if grows & ((count <= id) & (id <= 1022)) {
                id + 1
            } else {
                count
            }
        }
        _ => count,
    }
}

// ".. as long as no create or delete has come": whether names may make slots behind an entry.
pub fn grows_after(rule: Rule, grows: bool) -> bool
    ensures { result ≡ grows_after grows (rule_as rule) }
{
    match rule {
        Rule::Create => false,
        Rule::Delete => false,
        _ => grows,
    }
}

// Whether names may make slots at the beginning of a log.
pub fn grows(rules: Rules) -> bool
    ensures { result ≡ grows rules }
{
    rules == Rules::Littlefs
}

// "every check tag's size is 4 to 1,022"
pub fn check_fits(size: u32) -> bool
    ensures { result ≡ between 4 1_022 size }
{
    (4 <= size) & (size <= LFS_ATTR_MAX)
}

// The count behind an entry that falls under a rule, or that it is bad.
pub fn count_behind(rule: Rule, count: u32, id: u32, size: u32) -> Option<u32>
    ensures { result ≡ passed_by (rule_as rule) count id size }
{
    if rule_holds(rule, count, id, size) {
        return Some(count_after(rule, count));
    }
    None
}

// The count behind an entry of a type, or that it is bad.
pub fn counted(logged: bool, kind: u16, count: u32, id: u32, size: u32) -> Option<u32>
    ensures { result ≡ counted_by logged kind count id size }
{
    let rule = rule_of(logged, kind);
    count_behind(rule, count, id, size)
}
