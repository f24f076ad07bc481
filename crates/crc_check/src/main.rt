// The published check of this CRC: of the nine ASCII digits 1 to 9 it is 0376E6E7. Both forms are held to it, by proof and by running.
#![tactic(auto)]

use std::io;

const PUBLISHED: u32 = 0x0376_E6E7;

fn main(rt: HostRuntime) -> io::Result<()> {
    let bitwise = crc::crc_bitwise(b"123456789");
    let fast = crc::crc(b"123456789");
    let whole = crc::crc(b"123456789\x03\x76\xE6\xE7");
    prove_eq!(bitwise, PUBLISHED);
    prove_eq!(fast, PUBLISHED);
    prove_eq!(whole, 0);
    say(&rt, "123456789, bit by bit", bitwise)?;
    say(&rt, "123456789, eight bytes a turn", fast)?;
    say(&rt, "123456789 and its CRC", whole)
}

fn say(rt: &impl Print, what: &str, crc: u32) -> io::Result<()> {
    println!(rt; "{what}: {crc:08x}")
}
