// The lines that `events` and `tables` print. Each ends with an error where it cannot be written. Words are byte strings; hexadecimal has upper-case digits, all else is decimal.
#![tactic(auto)]

use std::io;
use std::io::Write;
use times::Day;

pub mod heads;

ghost use Rattle.std.specs.Prelude.{◌≡◌, ◌+◌, ◌*◌, ◌≤◌, length};

// v in decimal, which takes at most twenty digits.
fn put_number(line: &mut [u8], at: usize, v: u64) -> usize
    requires { at + 20 ≤ length line.old }
    ensures { result ≤ at + 20 }
{
    text::put_dec(line, at, v)
}

pub fn say(stdout: &mut impl Write, words: &[u8]) -> io::Result<()> {
    stdout.write_all(words)
}

// A word and a number.
pub fn say_number(stdout: &mut impl Write, word: &[u8], v: u64) -> io::Result<()>
    requires { length word.now ≤ 20 }
{
    let mut line = [0u8; 40];
    let a = text::put(&mut line, 0, word);
    let b = put_number(&mut line, a, v);
    stdout.write_all(&line[0..b])
}

// The same of a word of an entry.
fn say_word(stdout: &mut impl Write, word: &[u8], v: u32) -> io::Result<()>
    requires { length word.now ≤ 20 }
{
    say_number(stdout, word, v as u64)
}

// A word and two hexadecimal digits.
pub fn say_hex2(stdout: &mut impl Write, word: &[u8], v: u8) -> io::Result<()>
    requires { length word.now ≤ 20 }
{
    let mut line = [0u8; 24];
    let a = text::put(&mut line, 0, word);
    let b = text::put_hex2(&mut line, a, v);
    stdout.write_all(&line[0..b])
}

// A word and four hexadecimal digits.
pub fn say_hex4(stdout: &mut impl Write, word: &[u8], v: u16) -> io::Result<()>
    requires { length word.now ≤ 20 }
{
    let mut line = [0u8; 24];
    let a = text::put(&mut line, 0, word);
    let b = text::put_hex4(&mut line, a, v);
    stdout.write_all(&line[0..b])
}

// The same of a word of an entry.
fn say_low16(stdout: &mut impl Write, word: &[u8], v: u32) -> io::Result<()>
    requires { length word.now ≤ 20 }
{
    say_hex4(stdout, word, (v % 65536) as u16)
}

// Two decimal digits in one byte.
fn bcd(v: u16) -> u8 {
    (v % 100 / 10 * 16 + v % 10) as u8
}

// The date of a modified Julian day, or a stroke for a day before 1900-03-01.
fn say_date(stdout: &mut impl Write, day: u32) -> io::Result<()> {
    match times::date_of(Day((day % 65536) as u16)) {
        Some(c) => {
            say_hex2(stdout, b" ", bcd(c.year / 100))?;
            say_hex2(stdout, b"", bcd(c.year))?;
            say_hex2(stdout, b"-", bcd(c.month as u16))?;
            say_hex2(stdout, b"-", bcd(c.day as u16))
        }
        None => say(stdout, b" -"),
    }
}

// A second count, or that it is undefined.
fn say_seconds(stdout: &mut impl Write, word: &[u8], seconds: u32) -> io::Result<()>
    requires { length word.now ≤ 20 }
{
    if seconds == entry_words::UNDEFINED {
        say(stdout, word)?;
        return say(stdout, b"undefined");
    }
    say_word(stdout, word, seconds)
}

// Six digits as they were sent.
fn say_digits(stdout: &mut impl Write, digits: &[u8], at: usize) -> io::Result<()>
    requires { at + 3 ≤ length digits.now }
{
    say_hex2(stdout, b" ", digits[at])?;
    say_hex2(stdout, b":", digits[at + 1])?;
    say_hex2(stdout, b":", digits[at + 2])
}

// The line of an event: its words, and the six bytes of its time and of its duration.
pub fn say_event(stdout: &mut impl Write, words: &[u32], digits: &[u8]) -> io::Result<()>
    requires { (length words.now ≡ 12) × (length digits.now ≡ 6) }
{
    say_word(stdout, b"event ", words[1])?;
    say_low16(stdout, b" ", words[3])?;
    say_word(stdout, b" day ", words[6])?;
    say_date(stdout, words[6])?;
    say_seconds(stdout, b" time ", words[7])?;
    say_digits(stdout, digits, 0)?;
    say_seconds(stdout, b" duration ", words[8])?;
    say_digits(stdout, digits, 3)?;
    say_word(stdout, b" running ", words[9])?;
    say_word(stdout, b" ca ", words[10])?;
    say_word(stdout, b" descriptors ", words[4])?;
    say(stdout, b"\n")
}

// The line of a transport stream, by its words.
pub fn say_stream(stdout: &mut impl Write, words: &[u32]) -> io::Result<()>
    requires { length words.now ≡ 12 }
{
    say_word(stdout, b"stream ", words[1])?;
    say_low16(stdout, b" ", words[3])?;
    say_low16(stdout, b" network ", words[5])?;
    say_word(stdout, b" descriptors ", words[4])?;
    say(stdout, b"\n")
}

// The line of a service, by its words.
pub fn say_service(stdout: &mut impl Write, words: &[u32]) -> io::Result<()>
    requires { length words.now ≡ 12 }
{
    say_word(stdout, b"service ", words[1])?;
    say_low16(stdout, b" ", words[3])?;
    say_low16(stdout, b" network ", words[5])?;
    say_word(stdout, b" schedule ", words[11] / 2)?;
    say_word(stdout, b" following ", words[11] % 2)?;
    say_word(stdout, b" running ", words[9])?;
    say_word(stdout, b" ca ", words[10])?;
    say_word(stdout, b" descriptors ", words[4])?;
    say(stdout, b"\n")
}

// Bytes in hexadecimal.
fn put_bytes(line: &mut [u8], at: usize, bytes: &[u8]) -> usize
    requires { at + 2 * length bytes.now ≤ length line.old }
    ensures { result ≡ at + 2 * length bytes.now }
{
    for (i, b) in bytes.iter().enumerate() {
        text::put_hex2(line, at + 2 * i, *b);
    }
    at + 2 * bytes.len()
}

// The line of a descriptor: its tag and its bytes, of which no descriptor has more than 255.
pub fn say_descriptor(stdout: &mut impl Write, tag: u8, bytes: &[u8]) -> io::Result<()> {
    if bytes.len() == 0 {
        say_hex2(stdout, b"descriptor ", tag)?;
        return say(stdout, b" 0\n");
    }
    if 255 < bytes.len() {
        return Ok(());
    }
    let mut line = [0u8; 600];
    let a = text::put(&mut line, 0, b"descriptor ");
    let b = text::put_hex2(&mut line, a, tag);
    let c = text::put(&mut line, b, b" ");
    let d = put_number(&mut line, c, bytes.len() as u64);
    let e = text::put(&mut line, d, b" ");
    let f = put_bytes(&mut line, e, bytes);
    let g = text::put(&mut line, f, b"\n");
    stdout.write_all(&line[0..g])
}
