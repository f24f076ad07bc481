// The lines that are printed.
ghost use Rattle.std.specs.Prelude.{◌≡◌, ◌+◌, ◌≤◌, length};

use std::io;
use std::io::Write;

// v in decimal, which takes at most twenty digits.
fn number(line: &mut [u8], at: usize, v: u64) -> usize
    requires { at + 20 ≤ length line.old }
    ensures { result ≤ at + 20 }
{
    text::put_dec(line, at, v)
}

// A word and a number.
fn say_number(stdout: &mut impl Write, word: &[u8], v: u64) -> io::Result<()>
    requires { length word.now ≤ 12 }
{
    let mut line = [0u8; 32];
    let a = text::put(&mut line, 0, word);
    let b = number(&mut line, a, v);
    stdout.write_all(&line[0..b])
}

// The line of an answer, or of what follows it.
pub fn say_line(stdout: &mut impl Write, word: &[u8], v: u64) -> io::Result<()>
    requires { length word.now ≤ 12 }
{
    say_number(stdout, word, v)?;
    stdout.write_all(b"\n")
}

fn put_section(line: &mut [u8], section: &[u8])
    requires { (128 ≡ length line.old) × (length section.now ≤ 64) }
{
    for (i, b) in section.iter().enumerate() {
        text::put_hex2(line, 2 * i, *b);
    }
}

// The line of a section that is read out: its number, and its bytes in hexadecimal. No cell here holds more than 64.
pub fn say_section(stdout: &mut impl Write, v: usize, section: &[u8]) -> io::Result<()> {
    if section.len() <= 64 {
        let mut line = [0u8; 128];
        put_section(&mut line, section);
        say_number(stdout, b" section ", v as u64)?;
        stdout.write_all(b" ")?;
        let end = 2 * section.len();
        stdout.write_all(&line[0..end])?;
        stdout.write_all(b"\n")?;
    }
    Ok(())
}

// The line of a section that a reader handed out, which stands behind it at slot `behind`. Nothing where it is empty: there was no further one.
pub fn say_part(stdout: &mut impl Write, behind: usize, part: &[u8]) -> io::Result<()> {
    if !part.is_empty() & (behind > 0) {
        say_section(stdout, behind - 1, part)?;
    }
    Ok(())
}
