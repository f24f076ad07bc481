// What the register becomes when zeros go into it. It is linear: each of its bits makes a number by itself, and the register makes the
// exclusive or of those of its bits that are 1. Bit i makes the remainder by the polynomial of x^(32 + i), or of x^(64 + i).
#![tactic(auto)]

ghost use Rattle.std.specs.Prelude.{◌≡◌, ◌%◌, ◌^◌, get_or};
ghost use Rattle.crc_zeros.specs.Zeros.{zeros};
ghost use Rattle.crc_zeros.specs.Sums.{sums};

// The register x after 32 zeros.
pub fn after32(x: u32) -> u32
    ensures { result ≡ zeros 32 x }
{
    byte_after32(x)
        ^ sum(x >> 8, 0xD219_C1DC, 0xA0F2_9E0F, 0x4524_21A9, 0x8A48_4352)
        ^ sum(x >> 12, 0x1051_9B13, 0x20A3_3626, 0x4146_6C4C, 0x828C_D898)
        ^ sum(x >> 16, 0x01D8_AC87, 0x03B1_590E, 0x0762_B21C, 0x0EC5_6438)
        ^ sum(x >> 20, 0x1D8A_C870, 0x3B15_90E0, 0x762B_21C0, 0xEC56_4380)
        ^ sum(x >> 24, 0xDC6D_9AB7, 0xBC1A_28D9, 0x7CF5_4C05, 0xF9EA_980A)
        ^ sum(x >> 28, 0xF714_2DA3, 0xEAE9_46F1, 0xD113_9055, 0xA6E6_3D1D)
}

// The register x after 64 zeros.
pub fn after64(x: u32) -> u32
    ensures { result ≡ zeros 64 x }
{
    sum(x, 0x490D_678D, 0x921A_CF1A, 0x20F4_8383, 0x41E9_0706)
        ^ sum(x >> 4, 0x83D2_0E0C, 0x0365_01AF, 0x06CA_035E, 0x0D94_06BC)
        ^ sum(x >> 8, 0x1B28_0D78, 0x3650_1AF0, 0x6CA0_35E0, 0xD940_6BC0)
        ^ sum(x >> 12, 0xB641_CA37, 0x6842_89D9, 0xD085_13B2, 0xA5CB_3AD3)
        ^ sum(x >> 16, 0x4F57_6811, 0x9EAE_D022, 0x399C_BDF3, 0x7339_7BE6)
        ^ sum(x >> 20, 0xE672_F7CC, 0xC824_F22F, 0x9488_F9E9, 0x2DD0_EE65)
        ^ sum(x >> 24, 0x5BA1_DCCA, 0xB743_B994, 0x6A46_6E9F, 0xD48C_DD3E)
        ^ sum(x >> 28, 0xADD8_A7CB, 0x5F70_5221, 0xBEE0_A442, 0x7900_5533)
}

// The low byte of x alone, after 32 zeros.
pub fn byte_after32(x: u32) -> u32
    ensures { result ≡ zeros 32 (x % 2 ^ 8) }
{
    sum(x, 0x04C1_1DB7, 0x0982_3B6E, 0x1304_76DC, 0x2608_EDB8)
        ^ sum(x >> 4, 0x4C11_DB70, 0x9823_B6E0, 0x3486_7077, 0x690C_E0EE)
}

// The exclusive or of those of four numbers whose bit among the four low bits of x is 1, a the lowest. Where the numbers are constants
// the compiler makes constant data of the sixteen sums; an array of them would be written to the stack at every call.
fn sum(x: u32, a: u32, b: u32, c: u32, d: u32) -> u32
    ensures { result ≡ get_or (sums a b c d) (x % 16) 0 }
{
    match x % 16 {
        0 => 0,
        1 => a,
        2 => b,
        3 => a ^ b,
        4 => c,
        5 => a ^ c,
        6 => b ^ c,
        7 => a ^ b ^ c,
        8 => d,
        9 => a ^ d,
        10 => b ^ d,
        11 => a ^ b ^ d,
        12 => c ^ d,
        13 => a ^ c ^ d,
        14 => b ^ c ^ d,
        _ => a ^ b ^ c ^ d,
    }
}
