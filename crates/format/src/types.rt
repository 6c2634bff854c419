// littlefs's own names for the numbers of the format, each once: those of lfs_type.rs and types.rs (lfs.h's enum
// lfs_type), and in plain words those that littlefs writes as bare numbers. `specs/Kind.antt` has the same for the
// definitions. A type is as wide as lfs_tag_type1, type2 and type3 answer it: a number and no enum, since a tag may
// hold any.

// ---- types

// a name, whatever its kind: type1
pub const LFS_TYPE_NAME: u16 = 0x000;
// the name of a file
pub const LFS_TYPE_REG: u16 = 0x001;
// the name of a directory
pub const LFS_TYPE_DIR: u16 = 0x002;
// the name of the superblock
pub const LFS_TYPE_SUPERBLOCK: u16 = 0x0ff;
// a struct, whatever its kind: type1
pub const LFS_TYPE_STRUCT: u16 = 0x200;
// the struct of a directory: its pair
pub const LFS_TYPE_DIRSTRUCT: u16 = 0x200;
// the struct of a file that stands in the log
pub const LFS_TYPE_INLINESTRUCT: u16 = 0x201;
// the struct of a file in blocks of its own: their head, and the size
pub const LFS_TYPE_CTZSTRUCT: u16 = 0x202;
// user attributes, type1: 0x300 plus a byte of the user's choice
pub const LFS_TYPE_USERATTR: u16 = 0x300;
// the last of the user attributes
pub const LAST_USERATTR: u16 = 0x3ff;
// a create or a delete: type1
pub const LFS_TYPE_SPLICE: u16 = 0x400;
// a slot comes in
pub const LFS_TYPE_CREATE: u16 = 0x401;
// a slot goes
pub const LFS_TYPE_DELETE: u16 = 0x4ff;
// a commit check: type2
pub const LFS_TYPE_CCRC: u16 = 0x500;
// the forward check of what stands behind a commit
pub const LFS_TYPE_FCRC: u16 = 0x5ff;
// a tail, whatever its kind: type1
pub const LFS_TYPE_TAIL: u16 = 0x600;
// a tail to the next directory
pub const LFS_TYPE_SOFTTAIL: u16 = 0x600;
// a tail to the rest of the same directory
pub const LFS_TYPE_HARDTAIL: u16 = 0x601;
// the pair's part of the global state
pub const LFS_TYPE_MOVESTATE: u16 = 0x7ff;
// no entry at all: what lfs_mktag_if makes where its condition is false
pub const LFS_FROM_NOOP: u16 = 0x000;

// ---- the fields of a tag

// what lfs_tag_type1 keeps of a type
pub const TYPE1_MASK: u32 = 0x700;
// what lfs_tag_type2 keeps of a type
pub const TYPE2_MASK: u32 = 0x780;
// the whole type
pub const TYPE3_MASK: u32 = 0x7ff;
// the id of what belongs to no slot: tails, checks, move states, and the root; as a mask, the whole id
pub const NO_SLOT: u32 = 0x3ff;
// the size of a removal, which has no data
pub const REMOVAL: u32 = 0x3ff;
// the most bytes that an entry holds
pub const LFS_ATTR_MAX: u32 = 1_022;

// ---- bounds

// "Lookup buffer .. at most 65,536 bytes"
pub const LONGEST_BUFFER: usize = 65_536;

// ---- words

// the number of no block
pub const LFS_BLOCK_NULL: u32 = 0xffff_ffff;
// the checksum before its first byte
pub const CRC_START: u32 = 0xffff_ffff;
// the previous tag of a log's first
pub const FIRST_PREV: u32 = 0xffff_ffff;
// a limit of stores that no call reaches
pub const UNLIMITED: u32 = 0xffff_ffff;
