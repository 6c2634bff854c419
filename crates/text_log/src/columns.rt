// A tag in columns: its offset, itself after the XOR, its type, the type's name, id and size.
ghost use Rattle.std.specs.Prelude.{◌≡◌};
ghost use Rattle.format.specs.RawLog.{margin, column, id_column, size_column, name_in, type_names, class_name};
ghost use Rattle.format.specs.RawLog.{tag_name, type_columns, tag_columns};
ghost use Rattle.text.specs.Put.{Puts};

use format::types::*;
use text::Text;

// What stands before a number of less than four digits.
#[tactic(auto, unfolding(format::specs::RawLog::margin, text::specs::Put::puts_of))]
fn margin(text: &mut Text, n: u32)
    ensures { Puts text.old text.new (margin n) }
{
    if n < 10 {
        return text.puts(b"   ");
    }
    if n < 100 {
        return text.puts(b"  ");
    }
    if n < 1_000 {
        return text.puts(b" ");
    }
}

// A number in four columns.
#[tactic(auto, unfolding(format::specs::RawLog::column), using(text::proofs::Joined::puts_append))]
fn column(text: &mut Text, n: u32)
    ensures { Puts text.old text.new (column n) }
{
    margin(text, n);
    text.decimal(n);
}

// "a dot for what belongs to no slot"
#[tactic(auto, unfolding(format::specs::RawLog::id_column))]
fn id_column(text: &mut Text, tag: u32)
    ensures { Puts text.old text.new (id_column tag) }
{
    let id = tag::lfs_tag_id(tag) as u32;
    if id == NO_SLOT {
        return text.puts(b"   .");
    }
    column(text, id);
}

// "an x for a removal"
#[tactic(auto, unfolding(format::specs::RawLog::size_column))]
fn size_column(text: &mut Text, tag: u32)
    ensures { Puts text.old text.new (size_column tag) }
{
    let size = tag::lfs_tag_size(tag);
    if size == REMOVAL {
        return text.puts(b"   x");
    }
    column(text, size);
}

// The name of a type's upper three bits.
#[tactic(auto, unfolding(format::specs::RawLog::class_name, format::specs::RawLog::name_in))]
fn class_name(type1: u16) -> [u8; 12]
    ensures { result ≡ class_name type1 }
{
    match type1 {
        LFS_TYPE_NAME => *b"name        ",
        LFS_TYPE_STRUCT => *b"struct      ",
        LFS_TYPE_USERATTR => *b"userattr    ",
        LFS_TYPE_SPLICE => *b"splice      ",
        LFS_TYPE_CCRC => *b"crc         ",
        LFS_TYPE_TAIL => *b"tail        ",
        0x700 => *b"gstate      ",
        _ => *b"unknown     ",
    }
}

// The name of a type that has one of its own, or of its upper three bits.
#[tactic(auto, unfolding(format::specs::RawLog::name_in))]
fn type_name(type3: u16, type1: u16) -> [u8; 12]
    ensures { result ≡ name_in type_names type3 (class_name type1) }
{
    match type3 {
        LFS_TYPE_REG => *b"reg         ",
        LFS_TYPE_DIR => *b"dir         ",
        LFS_TYPE_SUPERBLOCK => *b"superblock  ",
        LFS_TYPE_DIRSTRUCT => *b"dirstruct   ",
        LFS_TYPE_INLINESTRUCT => *b"inlinestruct",
        LFS_TYPE_CTZSTRUCT => *b"ctzstruct   ",
        LFS_TYPE_CREATE => *b"create      ",
        LFS_TYPE_DELETE => *b"delete      ",
        LFS_TYPE_FCRC => *b"fcrc        ",
        LFS_TYPE_SOFTTAIL => *b"softtail    ",
        LFS_TYPE_HARDTAIL => *b"hardtail    ",
        LFS_TYPE_MOVESTATE => *b"movestate   ",
        _ => class_name(type1),
    }
}

// "a commit check goes by type2"
#[tactic(auto, unfolding(format::specs::RawLog::tag_name))]
fn tag_name(tag: u32) -> [u8; 12]
    ensures { result ≡ tag_name tag }
{
    if fetch_walk::cursor::is_check(tag) {
        return *b"ccrc        ";
    }
    type_name(tag::lfs_tag_type3(tag), tag::lfs_tag_type1(tag))
}

// The type, its name, id and size.
#[tactic(auto, unfolding(format::specs::RawLog::type_columns, text::specs::Put::puts_of), using(text::proofs::Joined::puts_append))]
fn type_columns(text: &mut Text, tag: u32)
    ensures { Puts text.old text.new (type_columns tag) }
{
    text.hex_type(tag::lfs_tag_type3(tag) as u32);
    text.puts(b"  ");
    text.puts(&tag_name(tag));
    id_column(text, tag);
    text.puts(b" ");
    size_column(text, tag);
}

// All columns of the tag at an offset.
#[tactic(auto, unfolding(format::specs::RawLog::tag_columns, text::specs::Put::puts_of), using(text::proofs::Joined::puts_append))]
pub fn tag_columns(text: &mut Text, place: u32, tag: u32)
    ensures { Puts text.old text.new (tag_columns place tag) }
{
    text.hex_word(place);
    text.puts(b": ");
    text.hex_word(tag);
    text.puts(b"  ");
    type_columns(text, tag);
}
