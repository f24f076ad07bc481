// The lines that `compare_guides` prints: hex in upper case, lengths, numbers and places in decimal. Each function writes to standard output as it goes, and ends with an error where it cannot.
#![tactic(auto)]

ghost use Rattle.std.specs.Prelude.{◌≡◌, ◌+◌, ◌*◌, ◌≤◌, ◌<◌, length, IfOk};

use section::bytes::word;
use std::io;
use std::io::Write;

// Bytes of a section that are written at once.
const ROW: usize = 32;

pub fn say(stdout: &mut impl Write, text: &[u8]) -> io::Result<()> {
    stdout.write_all(text)
}

pub fn say_number(stdout: &mut impl Write, n: u64) -> io::Result<()> {
    write!(stdout, "{n}")
}

fn say_hex2(stdout: &mut impl Write, v: u8) -> io::Result<()> {
    let mut digits = [0u8; 2];
    text::put_hex2(&mut digits, 0, v);
    stdout.write_all(&digits)
}

fn say_hex4(stdout: &mut impl Write, v: u16) -> io::Result<()> {
    let mut digits = [0u8; 4];
    text::put_hex4(&mut digits, 0, v);
    stdout.write_all(&digits)
}

// The bytes of a section, two digits each.
fn say_bytes(stdout: &mut impl Write, bytes: &[u8]) -> io::Result<()> {
    for row in bytes.chunks(ROW) {
        say_row(stdout, row)?;
    }
    Ok(())
}

fn say_row(stdout: &mut impl Write, row: &[u8]) -> io::Result<()>
    requires { length row.now ≤ 32 }
{
    let mut digits = [0u8; 2 * ROW];
    for (k, b) in row.iter().enumerate() {
        text::put_hex2(&mut digits, 2 * k, *b);
    }
    stdout.write_all(&digits[..2 * row.len()])
}

// `stream TSID network ONID` of an EIT.
fn say_stream(stdout: &mut impl Write, s: &[u8]) -> io::Result<()>
    requires { 12 ≤ length s.now }
{
    say(stdout, b" stream ")?;
    say_hex4(stdout, word(s, 8))?;
    say(stdout, b" network ")?;
    say_hex4(stdout, word(s, 10))
}

fn say_current(stdout: &mut impl Write, s: &[u8]) -> io::Result<()>
    requires { 12 ≤ length s.now }
{
    say(stdout, b" current ")?;
    say_number(stdout, (s[5] % 2) as u64)?;
    say(stdout, b"\n")
}

// The first line of two sets: the key of the first.
pub fn say_set(stdout: &mut impl Write, pid: u16, s: &[u8]) -> io::Result<()> {
    if s.len() < 12 {
        return Ok(());
    }
    say(stdout, b"set ")?;
    say_hex4(stdout, pid)?;
    say(stdout, b" ")?;
    say_hex2(stdout, s[0])?;
    say(stdout, b" ")?;
    say_hex4(stdout, word(s, 3))?;
    if laid::is_eit(s[0]) {
        say_stream(stdout, s)?;
    }
    say_current(stdout, s)
}

fn kind_first(table_id: u8) -> u8 {
    table_id / 16 * 16
}

// The first line of two schedules: the key of the first, with the first table_id of its kind.
pub fn say_schedule(stdout: &mut impl Write, pid: u16, s: &[u8]) -> io::Result<()> {
    if s.len() < 12 {
        return Ok(());
    }
    say(stdout, b"schedule ")?;
    say_hex4(stdout, pid)?;
    say(stdout, b" ")?;
    say_hex2(stdout, kind_first(s[0]))?;
    say(stdout, b" ")?;
    say_hex4(stdout, word(s, 3))?;
    say_stream(stdout, s)?;
    say_current(stdout, s)
}

// A section that one side alone holds.
fn say_held(stdout: &mut impl Write, word: &[u8], number: u32, bytes: &[u8]) -> io::Result<()> {
    say(stdout, word)?;
    say_number(stdout, number as u64)?;
    say(stdout, b" ")?;
    say_number(stdout, bytes.len() as u64)?;
    say(stdout, b" ")?;
    say_bytes(stdout, bytes)?;
    say(stdout, b"\n")
}

// An entry of the list: a section that one side alone holds, or the place where two differ.
pub fn say_entry<'a>(
    stdout: &mut impl Write,
    first: &'a [u8],
    second: &'a [u8],
    number: u32,
    kind: u32,
    place: u32,
) -> io::Result<()> {
    match kind {
        1 => say_held(
            stdout,
            b"first ",
            number,
            guides::section_of(first, second, number as usize),
        ),
        2 => say_held(
            stdout,
            b"second ",
            number,
            guides::section_of(first, second, number as usize),
        ),
        _ => {
            say(stdout, b"both ")?;
            say_number(stdout, number as u64)?;
            say(stdout, b" ")?;
            say_number(stdout, place as u64)?;
            say(stdout, b"\n")
        }
    }
}

fn say_agree(stdout: &mut impl Write, agree: bool) -> io::Result<()> {
    if agree {
        say(stdout, b"agree")
    } else {
        say(stdout, b"differ")
    }
}

pub fn say_revisions(stdout: &mut impl Write, versions: bool, lasts: bool) -> io::Result<()> {
    say(stdout, b" versions ")?;
    say_agree(stdout, versions)?;
    say(stdout, b" lasts ")?;
    say_agree(stdout, lasts)
}

// The line of a table that a side holds; nothing of one that none does.
pub fn say_table(stdout: &mut impl Write, table_id: u8, word: u32) -> io::Result<()> {
    if word == 0 {
        return Ok(());
    }
    say(stdout, b"table ")?;
    say_hex2(stdout, table_id)?;
    match word % 4 {
        1 => say(stdout, b" first")?,
        2 => say(stdout, b" second")?,
        _ => {
            say(stdout, b" both")?;
            say_revisions(stdout, word / 4 % 2 == 0, word / 8 % 2 == 0)?;
        }
    }
    say(stdout, b"\n")
}

pub fn say_count(stdout: &mut impl Write, count: usize) -> io::Result<()> {
    say(stdout, b"entries ")?;
    say_number(stdout, count as u64)
}
