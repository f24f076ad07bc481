// Checks a log on standard input against a section list: `check_log CAPACITY REPEATS RULE LIMIT SIZE COUNT with|without|before SECTIONS < LOG`. It prints one line: whether the log is exactly the one
// that the sections give with these settings, and where not, the first place and what is wrong there. The list is read twice: first it is judged, then run.
#![tactic(auto)]

ghost use Rattle.std.specs.Prelude.{◌≡◌, ◌≤◌, length};

use log_entries::Entry;
use log_records::ReadError;
use log_state::{Run, Settings};
use std::io;
use std::io::{Read, Write};
use std::rt::Files;

// ---- the log beside what is expected: the place of its next record, `None` where it is wrong

// Says what is wrong, and where.
fn wrong(stdout: &mut impl Write, line: &[u8], place: u64) -> io::Result<Option<u64>>
    requires { length line.now ≤ 20 }
{
    log_lines::say_place(stdout, line, place)?;
    Ok(None)
}

// The next record of the log beside the one that is expected.
fn expect(
    stdin: &mut impl Read,
    stdout: &mut impl Write,
    expected: &[u8],
    place: u64,
    buf: &mut [u8; 13],
) -> io::Result<Option<u64>> {
    match log_reader::read_record(stdin, buf)? {
        Ok(Some(n)) => {
            if &buf[0..n] == expected {
                return Ok(Some(place.wrapping_add(n as u64)));
            }
            wrong(stdout, b"40 differs ", place)
        }
        Ok(None) => wrong(stdout, b"40 missing ", place),
        Err(ReadError::Unknown) => wrong(stdout, b"38 unknown ", place),
        Err(ReadError::Cut) => wrong(stdout, b"39 cut ", place),
    }
}

// The records of a section, one or two: the second begins where the first ends.
fn expect_both(
    stdin: &mut impl Read,
    stdout: &mut impl Write,
    records: &[u8],
    place: u64,
    buf: &mut [u8; 13],
) -> io::Result<Option<u64>> {
    if records.is_empty() {
        return Ok(Some(place));
    }
    let size = log_records::record_size(records[0]);
    if records.len() <= size {
        return expect(stdin, stdout, records, place, buf);
    }
    match expect(stdin, stdout, &records[0..size], place, buf)? {
        Some(second) => expect(stdin, stdout, &records[size..], second, buf),
        None => Ok(None),
    }
}

fn expect_entry(
    stdin: &mut impl Read,
    stdout: &mut impl Write,
    entry: Entry,
    place: u64,
    buf: &mut [u8; 13],
) -> io::Result<Option<u64>> {
    let bytes = entry.bytes;
    match bytes.get(0..entry.length) {
        Some(records) => expect_both(stdin, stdout, records, place, buf),
        None => Ok(None),
    }
}

// All sections were looked at: no record may be left.
fn finish(
    stdin: &mut impl Read,
    stdout: &mut impl Write,
    place: u64,
    buf: &mut [u8; 13],
) -> io::Result<()> {
    match log_reader::read_record(stdin, buf)? {
        Ok(None) => entry_lines::say(stdout, b"8 yes\n"),
        Ok(Some(_)) => log_lines::say_place(stdout, b"40 too-many ", place),
        Err(ReadError::Unknown) => log_lines::say_place(stdout, b"38 unknown ", place),
        Err(ReadError::Cut) => log_lines::say_place(stdout, b"39 cut ", place),
    }
}

// ---- the run

// A section, and its records beside the log.
fn turn(
    stdin: &mut impl Read,
    stdout: &mut impl Write,
    run: &mut Run,
    keys: &mut [u64; 65536],
    changes: &mut [u64; 65536],
    heads: &mut [u64; 3072],
    slots: &mut [u32; 73728],
    cells: &mut [u8; 1048576],
    list: &[u8],
    n: usize,
    place: u64,
    log: &mut [u8; 13],
) -> io::Result<Option<u64>>
    requires { (5 ≤ n) × (n ≤ 4103) × (4103 ≡ length list.now) }
{
    let taken = log_feed::take(*run, keys, changes, heads, slots, cells, list, n);
    let entry = taken.entry;
    *run = taken.run;
    expect_entry(stdin, stdout, entry, place, log)
}

// A proved loop has to end, and nothing says that an input does: the turns are counted, up to a number that no run uses up.
fn walk(
    file: &mut impl Read,
    stdin: &mut impl Read,
    stdout: &mut impl Write,
    opened: Run,
    keys: &mut [u64; 65536],
    changes: &mut [u64; 65536],
    heads: &mut [u64; 3072],
    slots: &mut [u32; 73728],
    cells: &mut [u8; 1048576],
    list: &mut [u8; 4103],
    log: &mut [u8; 13],
) -> io::Result<()> {
    let mut run = opened;
    let mut place = 0;
    for _ in 0..u64::MAX {
        match log_reader::read_section(file, list)? {
            Ok(Some(n)) => {
                let next = turn(
                    stdin, stdout, &mut run, keys, changes, heads, slots, cells, list, n, place,
                    log,
                )?;
                match next {
                    Some(behind) => place = behind,
                    None => return Ok(()),
                }
            }
            Ok(None) => return finish(stdin, stdout, place, log),
            Err(_) => return log_feed::say_changed(stdout),
        }
    }
    Ok(())
}

// The list is whole: the run is opened, and the list is read again.
fn run(
    settings: Settings,
    file: &mut impl Read,
    stdin: &mut impl Read,
    stdout: &mut impl Write,
    keys: &mut [u64; 65536],
    changes: &mut [u64; 65536],
    heads: &mut [u64; 3072],
    slots: &mut [u32; 73728],
    cells: &mut [u8; 1048576],
    list: &mut [u8; 4103],
    log: &mut [u8; 13],
) -> io::Result<()> {
    let opened = log_state::open(settings, keys, changes, heads, slots, cells);
    let answer = opened.answer;
    let begun = opened.run;
    match answer {
        Ok(()) => walk(
            file, stdin, stdout, begun, keys, changes, heads, slots, cells, list, log,
        ),
        Err(_) => log_feed::say_too_little(stdout),
    }
}

// Over the memory that a run is lent.
fn run_over(
    settings: Settings,
    file: &mut impl Read,
    stdin: &mut impl Read,
    stdout: &mut impl Write,
    list: &mut [u8; 4103],
) -> io::Result<()> {
    let mut keys = log_feed::keys();
    let mut changes = log_feed::keys();
    let mut heads = log_feed::heads();
    let mut slots = log_feed::slots();
    let mut cells = log_feed::cells();
    let mut log = [0u8; 13];
    run(
        settings,
        file,
        stdin,
        stdout,
        &mut keys,
        &mut changes,
        &mut heads,
        &mut slots,
        &mut cells,
        list,
        &mut log,
    )
}

fn check(
    rt: &impl Files,
    settings: Settings,
    path: &[u8],
    stdin: &mut impl Read,
    stdout: &mut impl Write,
) -> io::Result<()> {
    let mut list = log_feed::section();
    let pids = settings.pids;
    if log_feed::is_whole(rt, stdout, path, &mut list)? {
        if pids.is_without() {
            return log_feed::say_no_pid(stdout);
        }
        if let Some(mut file) = log_feed::open(rt, stdout, path)? {
            return run_over(settings, &mut file, stdin, stdout, &mut list);
        }
    }
    Ok(())
}

// SECTIONS is the eighth word.
fn check_path(rt: &HostRuntime, settings: Settings) -> io::Result<()> {
    let mut path = [0u8; 4096];
    let n = program_input::arg(rt, 8, &mut path);
    check(rt, settings, &path[0..n], &mut rt.stdin(), &mut rt.stdout())
}

fn usage(rt: &HostRuntime) -> io::Result<()> {
    entry_lines::say(
        &mut rt.stdout(),
        b"usage: check_log CAPACITY REPEATS RULE LIMIT SIZE COUNT with|without|before SECTIONS < LOG\n",
    )
}

fn main(rt: HostRuntime) -> io::Result<()> {
    if program_input::arg_count(&rt) != 9 {
        return usage(&rt);
    }
    match log_words::settings(&rt) {
        Some(settings) => check_path(&rt, settings),
        None => usage(&rt),
    }
}
