// Text into a lent buffer: bytes as they are, upper-case hexadecimal, and decimals. Each function writes from a place on and answers the
// place after what it wrote.
#![tactic(auto)]

ghost use Rattle.std.specs.Prelude.{◌+◌, ◌≤◌, ◌<◌, ◌≡◌, length};
ghost use Rattle.text.specs.Text.{hex_digit, hex2, hex4, decimal, Wrote};

// The bytes of s.
pub fn put(out: &mut [u8], at: usize, s: &[u8]) -> usize
    requires { at + length s.now ≤ length out.old }
    ensures { Wrote out.old at s.now out.new result }
{
    let end = at + s.len();
    out[at..end].copy_from_slice(s);
    end
}

// v in two hexadecimal digits.
pub fn put_hex2(out: &mut [u8], at: usize, v: u8) -> usize
    requires { at + 2 ≤ length out.old }
    ensures { Wrote out.old at (hex2 v) out.new result }
{
    out[at] = hex_digit(v / 16);
    out[at + 1] = hex_digit(v % 16);
    at + 2
}

// v in four hexadecimal digits.
pub fn put_hex4(out: &mut [u8], at: usize, v: u16) -> usize
    requires { at + 4 ≤ length out.old }
    ensures { Wrote out.old at (hex4 v) out.new result }
{
    let low = put_hex2(out, at, (v / 256) as u8);
    put_hex2(out, low, (v % 256) as u8)
}

// v in decimal, with no zero in front.
pub fn put_dec(out: &mut [u8], at: usize, v: u64) -> usize
    requires { at + length (decimal v) ≤ length out.old }
    ensures { Wrote out.old at (decimal v) out.new result }
{
    if v < 10 {
        out[at] = b'0' + v as u8;
        return at + 1;
    }
    let last = put_dec(out, at, v / 10);
    out[last] = b'0' + (v % 10) as u8;
    last + 1
}

fn hex_digit(d: u8) -> u8
    requires { d < 16 }
    ensures { result ≡ hex_digit d }
{
    if d < 10 { b'0' + d } else { b'A' + (d - 10) }
}
