// The audit of a pair's instructions: each slot with a payload and no deadline, or a deadline and no payload, and how
// many there are of both; or the refusal. The text is written to a lent buffer as far as there is room; the answer is
// the length of the whole text. Any bytes may be audited.
#![tactic(auto)]

ghost use Rattle.std.specs.Prelude.{◌≡◌, ◌<◌, length};
ghost use Rattle.format.specs.Log.{log};
ghost use Rattle.format.specs.Directory.{dir_of};
ghost use Rattle.format.specs.Listing.{written_to};
ghost use Rattle.format.specs.Audit.{is_instruction, is_payload, is_deadline, name_or_dash, lack_line};
ghost use Rattle.format.specs.Audit.{deadline_line, total_lines, block_audit, audit_as, audit_of};
ghost use Rattle.format.specs.Look.{HitIn};
ghost use Rattle.theory.specs.Lookup.ByMask.{holds};
ghost use Rattle.text.specs.Put.{Puts};
ghost use Rattle.compact_slot.specs.Slots.{Slots, slot_in, AllInside};
ghost use Rattle.text_audit.specs.Audited.{Told, Few, SlotAudited, SlotsAudited};

use format::types::*;
use format::{Found, LfsPair, Refusal};
use text::Text;
use text_input::{Answering, INPUT_PAIR, INPUT_PROG_SIZE, INPUT_RULES};

// The class of the deadline, the user attribute 0x74: a name and a struct come before.
const DEADLINE: usize = 2 + 0x74;

// How many instructions lack a deadline, and how many a payload.
#[derive(Clone, Copy)]
pub struct Audit {
    pub no_deadline: u32,
    pub no_payload: u32,
}

// "A slot is an instruction unless its name says directory or superblock": with no name it is one.
#[tactic(auto, unfolding(format::specs::Audit::is_instruction, theory::specs::Lookup::ByMask::holds))]
fn is_instruction(name: Option<Found>) -> bool
    ensures { Told is_instruction name result }
{
    let Some(e) = name else {
        return true;
    };
    let kind = tag::lfs_tag_type3(e.tag);
    (kind != LFS_TYPE_DIR) & (kind != LFS_TYPE_SUPERBLOCK)
}

// "It has a payload if its struct is CTZ, or inline of one byte or more."
#[tactic(auto, unfolding(format::specs::Audit::is_payload, theory::specs::Lookup::ByMask::holds))]
fn is_payload(content: Option<Found>) -> bool
    ensures { Told is_payload content result }
{
    let Some(e) = content else {
        return false;
    };
    let kind = tag::lfs_tag_type3(e.tag);
    (kind == LFS_TYPE_CTZSTRUCT) | ((kind == LFS_TYPE_INLINESTRUCT) & (4 < e.length))
}

// "Its deadline is the user attribute 0x74, of four bytes."
#[tactic(auto, unfolding(format::specs::Audit::is_deadline, theory::specs::Lookup::ByMask::holds))]
fn is_deadline(attribute: Option<Found>) -> bool
    ensures { Told is_deadline attribute result }
{
    match attribute {
        None => false,
        Some(e) => e.length == 8,
    }
}

// "The name as in the listing; `-` where there is none."
// That it is inside is asked here and below: `Found` is C's struct, and holds no block.
#[tactic(auto, unfolding(format::specs::Audit::name_or_dash, theory::specs::Lookup::ByMask::holds))]
fn name_or_dash(text: &mut Text, b: &[u8], name: Option<Found>)
    requires { HitIn (length b.now) name }
    ensures { Puts text.old text.new (name_or_dash (holds b.now name)) }
{
    match name {
        None => text.puts(b"-"),
        Some(e) => text.name_bytes(text_input::data_of(b, e)),
    }
}

// The line of a slot: its id, its name, and what it lacks.
#[tactic(auto, unfolding(format::specs::Audit::lack_line, text::specs::Put::puts_of), using(text::proofs::Joined::puts_append))]
fn lack_line(text: &mut Text, b: &[u8], id: u32, name: Option<Found>, what: &[u8])
    requires { HitIn (length b.now) name }
    ensures { Puts text.old text.new (lack_line id (holds b.now name) what.now) }
{
    text.puts(b"slot ");
    text.decimal(id);
    text.puts(b" ");
    name_or_dash(text, b, name);
    text.puts(what);
}

// "A deadline that can't be read is told apart from a missing one": by its length.
#[tactic(auto, unfolding(format::specs::Audit::deadline_line, theory::specs::Lookup::ByMask::holds))]
fn deadline_line(text: &mut Text, b: &[u8], id: u32, name: Option<Found>, attribute: Option<Found>)
    requires name_in { HitIn (length b.now) name }
    requires attribute_in { HitIn (length b.now) attribute }
    ensures { Puts text.old text.new
        (deadline_line id (holds b.now name) (holds b.now attribute)) }
{
    let Some(e) = attribute else {
        return lack_line(text, b, id, name, b" no deadline\n");
    };
    lack_line(text, b, id, name, b" deadline of ");
    text.decimal(e.length - 4);
    text.puts(b" bytes\n");
}

// A slot: one of the lines, or none, and the count that goes with it. "Of any other length it can't be read: it is
// there": a removed one isn't.
fn slot_audit(text: &mut Text, a: &mut Audit, b: &[u8], id: u32, seats: &[u32; 516])
    requires all_inside { AllInside b.now seats.now }
    requires few { Few a.old }
    ensures { SlotAudited text.old text.new a.old a.new id (slot_in b.now seats.now) }
{
    let name = compact_slot::found(seats, 0);
    let attribute = compact_slot::found(seats, DEADLINE);
    let instruction = is_instruction(name);
    let payload = is_payload(compact_slot::found(seats, 1));
    if instruction & (payload & !is_deadline(attribute)) {
        deadline_line(text, b, id, name, attribute);
        a.no_deadline += 1;
        return;
    }
    if instruction & (attribute.is_some() & !payload) {
        lack_line(text, b, id, name, b" no payload\n");
        a.no_payload += 1;
        return;
    }
}

// All slots of the log that ends at `end` with the tag `etag`, by rising id.
// As the listing's loop: its two lines, with a closure for a slot and its law, would be no fewer.
fn slot_audits(text: &mut Text, b: &[u8], end: usize, etag: u32, count: u32) -> Audit
    requires { Slots b.now end etag count }
    ensures { SlotsAudited text.old text.new result (dir_of (log b.now)) }
{
    let mut a = Audit {
        no_deadline: 0,
        no_payload: 0,
    };
    for id in 0..count {
        let seats = compact_slot::gather(b, end, etag, id);
        slot_audit(text, &mut a, b, id, &seats);
    }
    a
}

// "Behind them three lines": the two counts, and the number of slots.
fn total_lines(text: &mut Text, a: Audit, count: u32)
    ensures { Puts text.old text.new (total_lines a.no_deadline a.no_payload count) }
{
    text.number_line(b"payload without deadline ", a.no_deadline);
    text.number_line(b"deadline without payload ", a.no_payload);
    text.number_line(b"slots ", count);
}

// "A log that isn't regular has no directory: -202, and nothing else."
#[tactic(auto, unfolding(format::specs::Audit::block_audit))]
fn block_audit(text: &mut Text, a: Answering)
    ensures { Puts text.old text.new (block_audit a.entry.rules a.entry.dir a.entry.block.now) }
{
    let end = a.dir.off as usize;
    if !commit_regular::log_regular(a.block, end, a.rules) {
        return text_input::refused(text, Refusal::Irregular);
    }
    let count = a.dir.count as u32;
    let audit = slot_audits(text, a.block, end, a.dir.etag, count);
    total_lines(text, audit, count);
}

// Both images, one behind the other, the program size, the numbers of the two blocks and the rule, as the listing takes
// them.
// As the listing's: its six lines, with a closure for what is shown and its law, would be no fewer.
pub fn lfs_dir_audit_as(
    prog_size: u32,
    numbers: LfsPair,
    rules: u32,
    input: &[u8],
    out: &mut [u8],
) -> u32
    ensures value { result ≡ length (audit_as prog_size numbers rules input.now) }
    ensures out_after { out.new
        ≡ written_to out.old (audit_as prog_size numbers rules input.now) }
{
    let mut text = Text::new(out);
    match text_input::ask(prog_size, numbers, rules, input) {
        Ok(a) => block_audit(&mut text, a),
        Err(r) => text_input::refused(&mut text, r),
    }
    text.len()
}

// The audit of document 01's own input: "program size 16, numbers 0 and 1", by its own rule.
// As the listing's: a promise has each by its name, and each is one line.
pub fn lfs_dir_audit(input: &[u8], out: &mut [u8]) -> u32
    ensures value { result ≡ length (audit_of input.now) }
    ensures out_after { out.new ≡ written_to out.old (audit_of input.now) }
{
    lfs_dir_audit_as(INPUT_PROG_SIZE, INPUT_PAIR, INPUT_RULES, input, out)
}
