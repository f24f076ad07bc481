// What `counts` writes: the names of the columns, a line when the stream tells a time at which one is due, and `end`. Each line is written out at once.
#![tactic(auto)]

ghost use Rattle.std.specs.Prelude.{◌≡◌, ◌+◌, ◌*◌, ◌≤◌, ◌<◌, IfOk, length};
ghost use Rattle.counts_tell.specs.Told.{last_told, last_read};

use clocks::Stamp;
use counts_times::Last;
use std::io;
use std::io::Write;

const EMITTED: u64 = 1;

pub fn say_names(stdout: &mut impl Write) -> io::Result<()> {
    stdout.write_all(
        b"time\tpackets\tmalformed\tnobuffer\tcompleted\temitted\tsuppressed\tshort\tmismatch\tgate_evictions\tsets\tset_conflicts\tset_nocell\tset_evictions\tpresent_following\tschedules\teit_conflicts\teit_nocell\teit_range\teit_refused\teit_evictions\tschedule_evictions\n",
    )
}

pub fn say_usage(stdout: &mut impl Write) -> io::Result<()> {
    stdout.write_all(
        b"usage: counts CAPACITY LIMIT CELLS [INTERVAL] < stream.ts (capacity to 16384, limit to 128, cells to 256, interval in seconds from 1)\n",
    )
}

fn say_time(stdout: &mut impl Write, stamp: Stamp, numbers: &[u64; 21]) -> io::Result<()> {
    let mut line = [0u8; 512];
    let from = counts_lines::put_stamp(&mut line, stamp);
    let n = counts_lines::put_line(&mut line, from, numbers);
    stdout.write_all(&line[0..n])
}

// The last line.
pub fn say_end(stdout: &mut impl Write, numbers: &[u64; 21]) -> io::Result<()> {
    let mut line = [0u8; 512];
    let from = text::put(&mut line, 0, b"end");
    let n = counts_lines::put_line(&mut line, from, numbers);
    stdout.write_all(&line[0..n])
}

// A time that the stream tells: a line where one is due. What is left is the time of the last line.
fn tell_time(
    stdout: &mut impl Write,
    last: Last,
    interval: u64,
    numbers: &[u64; 21],
    stamp: Stamp,
) -> io::Result<Last>
    ensures { IfOk result (λ then. then ≡ last_told last interval stamp) }
{
    let second = counts_times::moment(stamp);
    if counts_times::is_due(last, second, interval) {
        say_time(stdout, stamp, numbers)?;
        return Ok(counts_times::at(second));
    }
    Ok(last)
}

// A section that was emitted.
fn tell_section(
    stdout: &mut impl Write,
    last: Last,
    interval: u64,
    numbers: &[u64; 21],
    section: &[u8],
) -> io::Result<Last>
    ensures { IfOk result (λ then. then ≡ last_read last interval section.now) }
{
    match clocks::read(section) {
        None => Ok(last),
        Some(stamp) => tell_time(stdout, last, interval, numbers, stamp),
    }
}

// That of place k, where it was emitted.
fn tell_at<'a>(
    stdout: &mut impl Write,
    last: Last,
    interval: u64,
    numbers: &[u64; 21],
    places: &[u64],
    k: usize,
    packet: &'a [u8],
    buffers: &'a [u8],
) -> io::Result<Last>
    requires { k * 6 + 5 < length places.now }
{
    if places[k * 6] == EMITTED {
        let place = demux_places::place_at(places, k);
        return tell_section(
            stdout,
            last,
            interval,
            numbers,
            demux_places::section_at(packet, buffers, place),
        );
    }
    Ok(last)
}

// Those of the first `count` places.
pub fn tell<'a>(
    stdout: &mut impl Write,
    last: Last,
    interval: u64,
    numbers: &[u64; 21],
    places: &[u64],
    count: usize,
    packet: &'a [u8],
    buffers: &'a [u8],
) -> io::Result<Last>
    requires { count * 6 ≤ length places.now }
{
    let mut then = last;
    for k in 0..count {
        then = tell_at(stdout, then, interval, numbers, places, k, packet, buffers)?;
    }
    Ok(then)
}
