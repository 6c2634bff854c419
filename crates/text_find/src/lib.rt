// What a slot of a given name holds, as the listing shows it; or that there is none, or the refusal. It is written to a
// lent buffer as far as there is room; the answer is the length of the whole text. Any bytes may be asked about.
#![tactic(auto)]

ghost use Rattle.std.specs.Prelude.{◌≡◌, length};
ghost use Rattle.format.specs.Listing.{written_to};
ghost use Rattle.format.specs.FindText.{found_text, find_text_as};
ghost use Rattle.text.specs.Put.{Puts};

use format::{LfsPair, Refusal};
use text::Text;
use text_input::Answering;

// Of the block that fetch answers from: "the slot's line and its attributes as the listing does, or .. that there is
// none".
#[tactic(auto, unfolding(format::specs::FindText::found_text, format::specs::FindText::named_text))]
fn found_text(text: &mut Text, a: Answering, name: &[u8], kind: u32)
    ensures { Puts text.old text.new
        (found_text a.entry.rules name.now kind a.entry.dir a.entry.block.now) }
{
    let end = a.dir.off as usize;
    match find_pass::find_in(a.block, end, a.rules, name, kind) {
        Ok(Some(id)) => {
            let seats = compact_slot::gather(a.block, end, a.dir.etag, id);
            text_listing::slot_text(text, a.block, id, &seats);
        }
        Ok(None) => text.puts(b"none\n"),
        Err(r) => text_input::refused(text, r),
    }
}

// Of both images, one behind the other, as far as `out` has room; the program size, the numbers of the two blocks, the
// rule by which the log must be regular (0 or 1, "any other -22"), the name and its type are given. The answer is the
// length of the whole text, as the listing's.
// As the listing's: its lines, with a closure for what is shown and its law, would be no fewer.
pub fn lfs_dir_find_as(
    prog_size: u32,
    numbers: LfsPair,
    rules: u32,
    name: &[u8],
    kind: u32,
    input: &[u8],
    out: &mut [u8],
) -> u32
    ensures value { result ≡ length (find_text_as prog_size numbers rules name.now kind input.now) }
    ensures out_after { out.new ≡ written_to out.old
        (find_text_as prog_size numbers rules name.now kind input.now) }
{
    let mut text = Text::new(out);
    if name.is_empty() {
        text_input::refused(&mut text, Refusal::Invalid);
        return text.len();
    }
    match text_input::ask(prog_size, numbers, rules, input) {
        Ok(a) => found_text(&mut text, a, name, kind),
        Err(r) => text_input::refused(&mut text, r),
    }
    text.len()
}
