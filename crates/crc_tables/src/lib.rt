// What the register of the CRC becomes when 32, 64, 96 or 128 zeros go into it, by which crate crc takes sixteen bytes at once.
//
// It is linear: each byte of the register makes a number by itself, which a table has, and the register makes the exclusive or of the
// four.
#![tactic(auto)]

ghost use Rattle.std.specs.Prelude.{◌≡◌, ◌%◌};
ghost use Rattle.std.specs.Int.Bits.{bit_xor};
ghost use Rattle.crc_zeros.specs.Zeros.{zeros};

mod tables128;
mod tables32;
mod tables64;
mod tables96;

// The register x after 32 zeros.
pub fn after32(x: u32) -> u32
    ensures { result ≡ zeros 32 x }
{
    tables32::byte0(turned(x))
        ^ tables32::byte1(turned(x >> 8))
        ^ tables32::byte2(turned(x >> 16))
        ^ tables32::byte3(turned(x >> 24))
}

// The register x after 64 zeros.
pub fn after64(x: u32) -> u32
    ensures { result ≡ zeros 64 x }
{
    tables64::byte0(turned(x))
        ^ tables64::byte1(turned(x >> 8))
        ^ tables64::byte2(turned(x >> 16))
        ^ tables64::byte3(turned(x >> 24))
}

// The register x after 96 zeros.
pub fn after96(x: u32) -> u32
    ensures { result ≡ zeros 96 x }
{
    tables96::byte0(turned(x))
        ^ tables96::byte1(turned(x >> 8))
        ^ tables96::byte2(turned(x >> 16))
        ^ tables96::byte3(turned(x >> 24))
}

// The register x after 128 zeros.
pub fn after128(x: u32) -> u32
    ensures { result ≡ zeros 128 x }
{
    tables128::byte0(turned(x))
        ^ tables128::byte1(turned(x >> 8))
        ^ tables128::byte2(turned(x >> 16))
        ^ tables128::byte3(turned(x >> 24))
}

// The low byte with its highest bit turned: the tables begin at the entry of 128.
fn turned(x: u32) -> u8
    ensures { result ≡ bit_xor (x % 256) 128 }
{
    (x % 256 ^ 128) as u8
}
