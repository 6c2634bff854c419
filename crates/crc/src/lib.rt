// The checksum: crc.rs, lfs_util.c's lfs_crc. CRC-32, polynomial 0x04c11db7 reflected, half a byte at a time, with no
// inversion.
#![tactic(auto)]

ghost use Rattle.std.specs.Prelude.{◌≡◌};
ghost use Rattle.format.specs.Crc.{crc_bits, crc_byte, crc};
ghost use Rattle.crc.specs.Rtable.{Rtable};

// What four bits leave of each number below 16.
const RTABLE: [u32; 16] = [
    0x0000_0000,
    0x1db7_1064,
    0x3b6e_20c8,
    0x26d9_30ac,
    0x76dc_4190,
    0x6b6b_51f4,
    0x4db2_6158,
    0x5005_713c,
    0xedb8_8320,
    0xf00f_9344,
    0xd6d6_a3e8,
    0xcb61_b38c,
    0x9b64_c2b0,
    0x86d3_d2d4,
    0xa00a_e278,
    0xbdbd_f21c,
];

// The one place where the table is tied to the bitwise definition.
fn rtable() -> [u32; 16]
    ensures { Rtable result }
{
    RTABLE
}

// Four bits pass. The table is lent: the constant would be built anew in the frame at each use.
fn half(table: &[u32; 16], sum: u32) -> u32
    requires { Rtable table.now }
    ensures { result ≡ crc_bits 4 sum }
{
    (sum >> 4) ^ table[(sum % 16) as usize]
}

// One byte, low half first.
fn byte_by(table: &[u32; 16], sum: u32, byte: u8) -> u32
    requires { Rtable table.now }
    ensures { result ≡ crc_byte sum byte }
{
    half(table, half(table, sum ^ (byte as u32)))
}

// The register `sum` after one byte more.
pub fn lfs_crc_byte(sum: u32, byte: u8) -> u32
    ensures { result ≡ crc_byte sum byte }
{
    let table = rtable();
    byte_by(&table, sum, byte)
}

// Per lfs_util.c lfs_crc: the register after the bytes of the buffer, from the register `sum`.
pub fn lfs_crc(sum: u32, buffer: &[u8]) -> u32
    ensures { result ≡ crc sum buffer.now }
{
    let table = rtable();
    let mut s = sum;
    for byte in buffer {
        s = byte_by(&table, s, *byte);
    }
    s
}
