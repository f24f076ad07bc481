// The lines of `counts`: the names of the columns, a time or `end` with the numbers behind it, tab-separated.
#![tactic(auto)]

ghost use Rattle.std.specs.Prelude.{◌≡◌, ◌+◌, ◌*◌, ◌≤◌, length, ◌∷◌, ◌++◌};
ghost use Rattle.text.specs.Text.{decimal, Wrote};
ghost use Rattle.counts_lines.specs.Lines.{numbers_of, date_text, clock_text, stamp_text, tabbed, rest_of};

use clocks::Stamp;
use counters::Counters;
use eit_state::Eit;
use store::Sets;
use streams::Streams;
use times::{Calendar, Day};

// How many bytes the longest line has: a time of 19, and 21 numbers of at most twenty digits behind a tab each.
pub const LINE: usize = 512;

// The numbers of a line, in the order of the columns.
pub fn numbers(
    streams: Streams,
    counters: Counters,
    tally: &[u64; 10],
    sets: Sets,
    eit: Eit,
) -> [u64; 21]
    ensures { result ≡ numbers_of streams counters tally.now sets eit }
{
    let eit_sets = eit.sets;
    [
        streams.packets,
        streams.malformed,
        tally[0],
        counters.completed,
        counters.emitted,
        counters.suppressed,
        counters.short_sections,
        counters.crc_mismatches,
        counters.evictions,
        tally[1],
        tally[2],
        tally[3],
        sets.evictions,
        tally[4],
        tally[5],
        tally[6],
        tally[7],
        tally[8],
        tally[9],
        eit_sets.evictions,
        eit.schedule_evictions,
    ]
}

fn date_text(c: Calendar) -> [u8; 11]
    ensures { result ≡ date_text c }
{
    [
        b'0' + (c.year / 1000 % 10) as u8,
        b'0' + (c.year / 100 % 10) as u8,
        b'0' + (c.year / 10 % 10) as u8,
        b'0' + (c.year % 10) as u8,
        b'-',
        b'0' + c.month / 10 % 10,
        b'0' + c.month % 10,
        b'-',
        b'0' + c.day / 10 % 10,
        b'0' + c.day % 10,
        b'T',
    ]
}

fn clock_text(hours: u8, minutes: u8, seconds: u8) -> [u8; 8]
    ensures { result ≡ clock_text hours minutes seconds }
{
    [
        b'0' + hours / 16,
        b'0' + hours % 16,
        b':',
        b'0' + minutes / 16,
        b'0' + minutes % 16,
        b':',
        b'0' + seconds / 16,
        b'0' + seconds % 16,
    ]
}

// A date and a time at the start of a line.
fn put_dated(line: &mut [u8; 512], c: Calendar, hours: u8, minutes: u8, seconds: u8) -> usize
    ensures wrote { Wrote line.old 0 (date_text c ++ clock_text hours minutes seconds) line.new result }
    ensures upper_bound { result ≤ 19 }
{
    let date = date_text(c);
    let clock = clock_text(hours, minutes, seconds);
    let at = text::put(line, 0, &date);
    text::put(line, at, &clock)
}

// A time alone.
fn put_undated(line: &mut [u8; 512], hours: u8, minutes: u8, seconds: u8) -> usize
    ensures wrote { Wrote line.old 0 (clock_text hours minutes seconds) line.new result }
    ensures upper_bound { result ≤ 19 }
{
    let clock = clock_text(hours, minutes, seconds);
    text::put(line, 0, &clock)
}

// What a clock tells, at the start of a line. A day before 1900-03-01 has no date, and no clock tells one.
pub fn put_stamp(line: &mut [u8; 512], stamp: Stamp) -> usize
    ensures wrote { Wrote line.old 0 (stamp_text stamp) line.new result }
    ensures upper_bound { result ≤ 19 }
{
    match times::date_of(Day(stamp.day)) {
        Some(c) => put_dated(line, c, stamp.hours, stamp.minutes, stamp.seconds),
        None => put_undated(line, stamp.hours, stamp.minutes, stamp.seconds),
    }
}

// A number behind a tab.
fn put_number(line: &mut [u8], at: usize, n: u64) -> usize
    requires { at + 21 ≤ length line.old }
    ensures wrote { Wrote line.old at (9 ∷ decimal n) line.new result }
    ensures upper_bound { result ≤ at + 21 }
{
    let from = text::put(line, at, b"\t");
    text::put_dec(line, from, n)
}

// Numbers, each behind a tab.
fn put_numbers(line: &mut [u8], at: usize, numbers: &[u64]) -> usize
    requires { at + 21 * length numbers.now ≤ length line.old }
    ensures wrote { Wrote line.old at (tabbed numbers.now) line.new result }
    ensures upper_bound { result ≤ at + 21 * length numbers.now }
{
    let mut to = at;
    for k in 0..numbers.len() {
        to = put_number(line, to, numbers[k]);
    }
    to
}

// A whole line: what stands first, the numbers, the line's end.
pub fn put_line(line: &mut [u8; 512], from: usize, numbers: &[u64; 21]) -> usize
    requires { from ≤ 19 }
    ensures wrote { Wrote line.old from (rest_of numbers.now) line.new result }
    ensures upper_bound { result ≤ length line.new }
{
    let at = put_numbers(line, from, numbers);
    text::put(line, at, b"\n")
}
