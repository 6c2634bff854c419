// The listing of a metadata pair: document 01's text of the record, the slots and their user attributes, or of the
// refusal. It is written to a lent buffer as far as there is room; the answer is the length of the whole text. Any
// bytes may be listed.
#![tactic(auto)]

ghost use Rattle.std.specs.Prelude.{◌≡◌, ◌^◌, length};
ghost use Rattle.format.specs.Log.{log};
ghost use Rattle.format.specs.Directory.{dir_of};
ghost use Rattle.format.specs.Listing.{tail_line, erased_line, record_lines, name_fields, struct_fields};
ghost use Rattle.format.specs.Listing.{attr_data, attr_line, attr_lines, slot_text, slot_lines, block_text, listing_of};
ghost use Rattle.format.specs.Listing.{listing_as, written_to};
ghost use Rattle.text.specs.Put.{Puts};
ghost use Rattle.format.specs.Look.{HitIn};
ghost use Rattle.theory.specs.Lookup.ByMask.{holds};
ghost use Rattle.compact_slot.specs.Slots.{Slots, slot_in, AllInside};

use format::types::LFS_BLOCK_NULL;
use format::{Found, LfsMdir, LfsPair, Refusal};
use text::Text;
use text_input::{Answering, INPUT_PAIR, INPUT_PROG_SIZE, INPUT_RULES};

// The class of the first user attribute: a name and a struct come before.
const ATTRIBUTES: usize = 2;

// "id, name type, name, ..; a missing part prints `-` per field". That what was found is inside is asked here and
// below: `Found` is C's struct, and the seats are an array of words; neither holds a block.
#[tactic(auto, unfolding(format::specs::Listing::name_fields, theory::specs::Lookup::ByMask::holds, text::specs::Put::puts_of), using(text::proofs::Joined::puts_append))]
pub fn name_fields(text: &mut Text, b: &[u8], name: Option<Found>)
    requires { HitIn (length b.now) name }
    ensures { Puts text.old text.new (name_fields (holds b.now name)) }
{
    let Some(e) = name else {
        return text.puts(b" - -");
    };
    text.puts(b" ");
    text.hex_type(tag::lfs_tag_type3(e.tag) as u32);
    text.puts(b" ");
    text.name_bytes(text_input::data_of(b, e));
}

// ".. struct type, struct length"
#[tactic(auto, unfolding(format::specs::Listing::struct_fields, theory::specs::Lookup::ByMask::holds, text::specs::Put::puts_of), using(text::proofs::Joined::puts_append, format::proofs::Searched::bytes_length))]
fn struct_fields(text: &mut Text, b: &[u8], content: Option<Found>)
    requires { HitIn (length b.now) content }
    ensures { Puts text.old text.new (struct_fields (holds b.now content)) }
{
    let Some(e) = content else {
        return text.puts(b" - -\n");
    };
    text.puts(b" ");
    text.hex_type(tag::lfs_tag_type3(e.tag) as u32);
    text.number_line(b" ", e.length - 4);
}

// ".. data hex, ..; an empty one prints `-`"
fn attr_data(text: &mut Text, bytes: &[u8])
    ensures { Puts text.old text.new (attr_data bytes.now) }
{
    if bytes.is_empty() {
        return text.puts(b"-");
    }
    text.hex_bytes(bytes);
}

// "Attr, behind its slot: id, type, data hex"; nothing where nothing was found.
#[tactic(auto, unfolding(format::specs::Listing::attr_line, theory::specs::Lookup::ByMask::holds, text::specs::Put::puts_of), using(text::proofs::Joined::puts_append))]
fn attr_line(text: &mut Text, b: &[u8], id: u32, attribute: Option<Found>)
    requires { HitIn (length b.now) attribute }
    ensures { Puts text.old text.new (attr_line id (holds b.now attribute)) }
{
    let Some(e) = attribute else {
        return;
    };
    text.puts(b"attr ");
    text.decimal(id);
    text.puts(b" ");
    text.hex_type(tag::lfs_tag_type3(e.tag) as u32);
    text.puts(b" ");
    attr_data(text, text_input::data_of(b, e));
    text.puts(b"\n");
}

// The user attributes of a slot, ".. rising".
fn attr_lines(text: &mut Text, b: &[u8], id: u32, seats: &[u32; 516])
    requires { AllInside b.now seats.now }
    ensures { Puts text.old text.new (attr_lines (2 ^ 8) 2 id (slot_in b.now seats.now)) }
{
    for class in ATTRIBUTES..compact_slot::CLASSES {
        attr_line(text, b, id, compact_slot::found(seats, class));
    }
}

// A slot: its line, and its user attributes behind it.
#[tactic(auto, unfolding(format::specs::Listing::slot_line, text::specs::Put::puts_of), using(text::proofs::Joined::puts_append))]
pub fn slot_text(text: &mut Text, b: &[u8], id: u32, seats: &[u32; 516])
    requires { AllInside b.now seats.now }
    ensures { Puts text.old text.new (slot_text id (slot_in b.now seats.now)) }
{
    text.puts(b"slot ");
    text.decimal(id);
    name_fields(text, b, compact_slot::found(seats, 0));
    struct_fields(text, b, compact_slot::found(seats, 1));
    attr_lines(text, b, id, seats);
}

// All slots of the log that ends at `end` with the tag `etag`.
fn slot_lines(text: &mut Text, b: &[u8], end: usize, etag: u32, count: u32)
    requires { Slots b.now end etag count }
    ensures { Puts text.old text.new (slot_lines 0 (dir_of (log b.now))) }
{
    for id in 0..count {
        let seats = compact_slot::gather(b, end, etag, id);
        slot_text(text, b, id, &seats);
    }
}

// "A tail prints `soft` or `hard` and two decimals; `none` is soft, both 0xffffffff."
// The flag and the pair apart, as C's record has them: a soft tail has a pair as well, so it is no Option.
#[tactic(auto, unfolding(format::specs::Listing::tail_line), using(text::proofs::Joined::puts_append))]
fn tail_line(text: &mut Text, split: bool, pair: LfsPair)
    ensures { Puts text.old text.new (tail_line split pair) }
{
    if !split & (pair.n0 == LFS_BLOCK_NULL) & (pair.n1 == LFS_BLOCK_NULL) {
        return text.puts(b"tail none\n");
    }
    text.puts(if split { b"tail hard " } else { b"tail soft " });
    text.decimal(pair.n0);
    text.number_line(b" ", pair.n1);
}

#[tactic(auto, unfolding(format::specs::Listing::erased_line))]
fn erased_line(text: &mut Text, erased: bool)
    ensures { Puts text.old text.new (erased_line erased) }
{
    if erased {
        return text.puts(b"erased yes\n");
    }
    text.puts(b"erased no\n");
}

// The six lines of a record.
#[tactic(auto, unfolding(format::specs::Listing::record_lines), using(text::proofs::Joined::puts_append))]
fn record_lines(text: &mut Text, m: LfsMdir)
    ensures { Puts text.old text.new (record_lines m) }
{
    text.number_line(b"rev ", m.rev);
    text.number_line(b"block ", m.pair.n0);
    text.number_line(b"end ", m.off);
    text.number_line(b"count ", m.count as u32);
    tail_line(text, m.split, m.tail);
    erased_line(text, m.erased);
}

// "for -202 after the erased line"
#[tactic(auto, unfolding(format::specs::Listing::block_text, format::specs::Listing::dir_lines), using(text::proofs::Joined::puts_append))]
fn block_text(text: &mut Text, a: Answering)
    ensures { Puts text.old text.new (block_text a.entry.rules a.entry.dir a.entry.block.now) }
{
    record_lines(text, a.dir);
    let end = a.dir.off as usize;
    if !commit_regular::log_regular(a.block, end, a.rules) {
        return text_input::refused(text, Refusal::Irregular);
    }
    slot_lines(text, a.block, end, a.dir.etag, a.dir.count as u32);
}

// The listing of both images, one behind the other, as far as `out` has room; the program size, the numbers of the two
// blocks and the rule by which the log must be regular are given: 0 or 1, "any other -22". The answer is the length of
// the whole text, so a caller whose buffer was too short knows how long a one to lend. No listing reaches 2^32 bytes,
// where `text`'s count would wrap. The audit and what is found are shown in the same way: these six lines, with a
// closure for what is shown and its law, would be no fewer.
pub fn lfs_dir_list_as(
    prog_size: u32,
    numbers: LfsPair,
    rules: u32,
    input: &[u8],
    out: &mut [u8],
) -> u32
    ensures value { result ≡ length (listing_as prog_size numbers rules input.now) }
    ensures out_after { out.new
        ≡ written_to out.old (listing_as prog_size numbers rules input.now) }
{
    let mut text = Text::new(out);
    match text_input::ask(prog_size, numbers, rules, input) {
        Ok(a) => block_text(&mut text, a),
        Err(r) => text_input::refused(&mut text, r),
    }
    text.len()
}

// The listing of document 01's own input: "program size 16, numbers 0 and 1", by its own rule.
pub fn lfs_dir_list(input: &[u8], out: &mut [u8]) -> u32
    ensures value { result ≡ length (listing_of input.now) }
    ensures out_after { out.new ≡ written_to out.old (listing_of input.now) }
{
    lfs_dir_list_as(INPUT_PROG_SIZE, INPUT_PAIR, INPUT_RULES, input, out)
}
