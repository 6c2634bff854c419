// What is read of an input, where a block answers.
ghost use Rattle.text_input.specs.Input.{Listable};

use format::{LfsMdir, Rules};

// The block that answers, its record, which is one of that block, and the rule by which its log is to be regular.
#[derive(Drop)]
pub struct Answering<'a> {
    pub rules: Rules,
    pub dir: LfsMdir,
    pub block: &'a [u8],
    pub ghost listable: { Listable block.now dir },
}
