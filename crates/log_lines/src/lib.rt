// The lines that `show_log` and `check_log` print. Each ends with an error where it cannot be written. Table_ids, extensions, PIDs and change numbers are upper-case hexadecimal, all else is decimal.
#![tactic(auto)]

ghost use Rattle.std.specs.Prelude.{◌≤◌, length};

use entry_lines::{say, say_hex2, say_hex4, say_number};
use log_records::Record;
use std::io;
use std::io::Write;

// A word, and the place that it speaks of.
pub fn say_place(stdout: &mut impl Write, word: &[u8], place: u64) -> io::Result<()>
    requires { length word.now ≤ 20 }
{
    say_number(stdout, word, place)?;
    say(stdout, b"\n")
}

pub fn say_count(stdout: &mut impl Write, count: u64) -> io::Result<()> {
    say_number(stdout, b"", count)?;
    say(stdout, b" records\n")
}

// The input and the PID.
fn say_origin(stdout: &mut impl Write, r: Record) -> io::Result<()> {
    say_number(stdout, b" ", r.input as u64)?;
    say_hex4(stdout, b" ", r.pid)
}

// The table_id and the extension.
fn say_table(stdout: &mut impl Write, r: Record) -> io::Result<()> {
    say_hex2(stdout, b" ", r.table_id)?;
    say_hex4(stdout, b" ", r.extension)
}

// Eight digits.
fn say_change(stdout: &mut impl Write, change: u32) -> io::Result<()> {
    say_hex4(stdout, b" ", (change / 65536) as u16)?;
    say_hex4(stdout, b"", (change % 65536) as u16)
}

fn say_seen(stdout: &mut impl Write, word: &[u8], r: Record) -> io::Result<()> {
    say(stdout, word)?;
    say_origin(stdout, r)?;
    say_table(stdout, r)?;
    say_number(stdout, b" ", r.number as u64)?;
    say_number(stdout, b" ", r.version as u64)?;
    say_change(stdout, r.change)?;
    say(stdout, b"\n")
}

fn say_failed(stdout: &mut impl Write, word: &[u8], r: Record) -> io::Result<()> {
    say(stdout, word)?;
    say_origin(stdout, r)?;
    say_number(stdout, b" ", r.length as u64)?;
    say(stdout, b"\n")
}

fn say_rest(stdout: &mut impl Write, r: Record) -> io::Result<()> {
    say_table(stdout, r)?;
    say_number(stdout, b" ", r.current_next as u64)?;
    say_number(stdout, b" ", r.version as u64)?;
    say_number(stdout, b" ", r.last as u64)?;
    say(stdout, b"\n")
}

fn say_set(stdout: &mut impl Write, r: Record) -> io::Result<()> {
    say(stdout, b"set")?;
    say_origin(stdout, r)?;
    say_rest(stdout, r)
}

fn say_bare_set(stdout: &mut impl Write, r: Record) -> io::Result<()> {
    say_number(stdout, b"set ", r.input as u64)?;
    say(stdout, b" PID unknown")?;
    say_rest(stdout, r)
}

// The line of a record.
pub fn say_record(stdout: &mut impl Write, r: Record) -> io::Result<()> {
    let kind = r.kind;
    match kind {
        1 => say_seen(stdout, b"emitted", r),
        2 => say_seen(stdout, b"suppressed", r),
        3 => say_failed(stdout, b"short", r),
        4 => say_failed(stdout, b"mismatch", r),
        5 => say_set(stdout, r),
        _ => say_bare_set(stdout, r),
    }
}
