// The lines above the entries of a set or of a table of a schedule, the one that ends them early, and those of sections that are refused.
ghost use Rattle.std.specs.Prelude.{◌≤◌, length};

use crate::{say, say_hex2, say_hex4, say_number};
use rows::Key;
use std::io;
use std::io::Write;

// What a run read and printed.
#[derive(Clone, Copy, Default)]
pub struct Totals {
    pub sections: u64,
    pub sets: u64,
    pub schedules: u64,
    pub events: u64,
    pub streams: u64,
    pub services: u64,
    pub descriptors: u64,
    pub refused: u64,
    pub other: u64,
}

fn say_low16(stdout: &mut impl Write, word: &[u8], v: u64) -> io::Result<()>
    requires { length word.now ≤ 20 }
{
    say_hex4(stdout, word, (v % 65536) as u16)
}

fn say_low8(stdout: &mut impl Write, word: &[u8], v: u64) -> io::Result<()>
    requires { length word.now ≤ 20 }
{
    say_hex2(stdout, word, (v % 256) as u8)
}

// What a set and a schedule are of: a service of a stream of a network, now or next.
fn say_service(stdout: &mut impl Write, key: Key) -> io::Result<()> {
    say_low16(stdout, b" ", key.extension)?;
    say_low16(stdout, b" stream ", key.transport_stream_id)?;
    say_low16(stdout, b" network ", key.original_network_id)?;
    say_number(stdout, b" current ", key.current_next)
}

pub fn say_set(stdout: &mut impl Write, key: Key, version: u64, last: u64) -> io::Result<()> {
    let from = key.from;
    say_low16(stdout, b"set ", from.pid)?;
    say_low8(stdout, b" ", key.table_id)?;
    say_service(stdout, key)?;
    say_number(stdout, b" version ", version)?;
    say_number(stdout, b" last ", last)?;
    say(stdout, b"\n")
}

// A set of the set collector: a table of a PID, now or next.
pub fn say_table_set(stdout: &mut impl Write, key: Key, version: u64, last: u64) -> io::Result<()> {
    let from = key.from;
    say_low16(stdout, b"set ", from.pid)?;
    say_low8(stdout, b" ", key.table_id)?;
    say_low16(stdout, b" ", key.extension)?;
    say_number(stdout, b" current ", key.current_next)?;
    say_number(stdout, b" version ", version)?;
    say_number(stdout, b" last ", last)?;
    say(stdout, b"\n")
}

// A schedule, from its first table_id to its last.
pub fn say_schedule(stdout: &mut impl Write, key: Key, first: u64, last: u64) -> io::Result<()> {
    let from = key.from;
    say_low16(stdout, b"schedule ", from.pid)?;
    say_low8(stdout, b" ", first)?;
    say_low8(stdout, b" ", last)?;
    say_service(stdout, key)?;
    say(stdout, b"\n")
}

pub fn say_table(
    stdout: &mut impl Write,
    table_id: u64,
    version: u32,
    last: u32,
) -> io::Result<()> {
    say_low8(stdout, b"table ", table_id)?;
    say_number(stdout, b" version ", version as u64)?;
    say_number(stdout, b" last ", last as u64)?;
    say(stdout, b"\n")
}

// What ended a listing early, and where.
pub fn say_broken(
    stdout: &mut impl Write,
    number: u8,
    section: usize,
    place: usize,
) -> io::Result<()> {
    say_number(stdout, b"broken ", number as u64)?;
    say_number(stdout, b" section ", section as u64)?;
    say_number(stdout, b" byte ", place as u64)?;
    say(stdout, b"\n")
}

pub fn say_bad_pid(stdout: &mut impl Write, pid: u16) -> io::Result<()> {
    say_hex4(stdout, b"badpid ", pid)?;
    say(stdout, b"\n")
}

pub fn say_refused(
    stdout: &mut impl Write,
    number: u8,
    pid: u16,
    table_id: u8,
    size: usize,
) -> io::Result<()> {
    say_number(stdout, b"refused ", number as u64)?;
    say_hex4(stdout, b" ", pid)?;
    say_hex2(stdout, b" ", table_id)?;
    say_number(stdout, b" ", size as u64)?;
    say(stdout, b"\n")
}

// Descriptors, and what was not taken.
fn say_rest(stdout: &mut impl Write, t: Totals) -> io::Result<()> {
    say_number(stdout, b" descriptors ", t.descriptors)?;
    say_number(stdout, b" refused ", t.refused)?;
    say_number(stdout, b" other ", t.other)?;
    say(stdout, b"\n")
}

pub fn say_event_totals(stdout: &mut impl Write, t: Totals) -> io::Result<()> {
    say_number(stdout, b"sections ", t.sections)?;
    say_number(stdout, b" sets ", t.sets)?;
    say_number(stdout, b" schedules ", t.schedules)?;
    say_number(stdout, b" events ", t.events)?;
    say_rest(stdout, t)
}

pub fn say_table_totals(stdout: &mut impl Write, t: Totals) -> io::Result<()> {
    say_number(stdout, b"sections ", t.sections)?;
    say_number(stdout, b" sets ", t.sets)?;
    say_number(stdout, b" streams ", t.streams)?;
    say_number(stdout, b" services ", t.services)?;
    say_rest(stdout, t)
}
