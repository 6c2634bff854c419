// Outside vectors, printed and compared with `stdout`: the published check of CRC-32 ("123456789": 0xcbf43926; our
// register before the inversion), the same in two parts, and numbers that document 01 gives.
#![tactic(auto)]

use std::io;

fn line(rt: &impl Print, label: &str, n: u32) -> io::Result<()> {
    println!(rt; "{label} {n:08x}")
}

fn main(rt: HostRuntime) -> io::Result<()> {
    let register = crc::lfs_crc(0xffff_ffff, b"123456789");
    line(&rt, "crc register", register)?;
    line(&rt, "crc published", register ^ 0xffff_ffff)?;
    line(
        &rt,
        "crc in two parts",
        crc::lfs_crc(crc::lfs_crc(0xffff_ffff, b"1234"), b"56789"),
    )?;
    line(&rt, "crc of nothing", crc::lfs_crc(0x1234_5678, b""))?;
    line(&rt, "length of ffffffff", tag::lfs_tag_dsize(0xffff_ffff))?;
    line(&rt, "length of 500ffc0d", tag::lfs_tag_dsize(0x500f_fc0d))?;
    line(&rt, "npw2 of 5", bits::lfs_npw2(5))?;
    line(&rt, "ctz of 80000000", bits::lfs_ctz(0x8000_0000))?;
    line(&rt, "popc of f0f00001", bits::lfs_popc(0xf0f0_0001))
}
