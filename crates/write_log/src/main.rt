// Writes the log of a section list: `write_log CAPACITY REPEATS RULE LIMIT SIZE COUNT with|without|before ROOM SECTIONS > LOG`, ROOM how many bytes the log may have, or - for any number. It writes the log's
// bytes and nothing else, or one line that says why there is none. The list is read twice, first it is judged, then run; with a ROOM once more between, to measure the log.
#![tactic(auto)]

ghost use Rattle.std.specs.Prelude.{◌≡◌, ◌≤◌, length};

use log_entries::Entry;
use log_state::{Run, Settings};
use std::io;
use std::io::{Read, Write};
use std::rt::Files;

// Why a run over the list stopped before its end.
#[derive(Clone, Copy)]
enum Stop {
    NoRoom,
    Changed,
    TooLittle,
}

// Writes the records of a section into the room that is left: the room behind them, `None` where there is too little.
fn put(out: &mut impl Write, room: u64, entry: Entry) -> io::Result<Option<u64>> {
    let bytes = entry.bytes;
    let Some(left) = room.checked_sub(entry.length as u64) else {
        return Ok(None);
    };
    let Some(records) = bytes.get(0..entry.length) else {
        return Ok(None);
    };
    out.write_all(records)?;
    Ok(Some(left))
}

// ---- the run

// A section of the list, n bytes with the five before it.
fn turn(
    out: &mut impl Write,
    room: u64,
    run: &mut Run,
    keys: &mut [u64; 65536],
    changes: &mut [u64; 65536],
    heads: &mut [u64; 3072],
    slots: &mut [u32; 73728],
    cells: &mut [u8; 1048576],
    list: &[u8],
    n: usize,
) -> io::Result<Option<u64>>
    requires { (5 ≤ n) × (n ≤ 4103) × (4103 ≡ length list.now) }
{
    let taken = log_feed::take(*run, keys, changes, heads, slots, cells, list, n);
    let entry = taken.entry;
    *run = taken.run;
    put(out, room, entry)
}

// A proved loop has to end, and nothing says that an input does: the turns are counted, up to a number that no run uses up.
fn walk(
    file: &mut impl Read,
    out: &mut impl Write,
    room: u64,
    opened: Run,
    keys: &mut [u64; 65536],
    changes: &mut [u64; 65536],
    heads: &mut [u64; 3072],
    slots: &mut [u32; 73728],
    cells: &mut [u8; 1048576],
    list: &mut [u8; 4103],
) -> io::Result<Result<(), Stop>> {
    let mut run = opened;
    let mut left = room;
    for _ in 0..u64::MAX {
        match log_reader::read_section(file, list)? {
            Ok(Some(n)) => {
                let behind = turn(
                    out, left, &mut run, keys, changes, heads, slots, cells, list, n,
                )?;
                match behind {
                    Some(room) => left = room,
                    None => return Ok(Err(Stop::NoRoom)),
                }
            }
            Ok(None) => return Ok(Ok(())),
            Err(_) => return Ok(Err(Stop::Changed)),
        }
    }
    Ok(Err(Stop::Changed))
}

fn run(
    settings: Settings,
    file: &mut impl Read,
    out: &mut impl Write,
    room: u64,
    keys: &mut [u64; 65536],
    changes: &mut [u64; 65536],
    heads: &mut [u64; 3072],
    slots: &mut [u32; 73728],
    cells: &mut [u8; 1048576],
    list: &mut [u8; 4103],
) -> io::Result<Result<(), Stop>> {
    let opened = log_state::open(settings, keys, changes, heads, slots, cells);
    let answer = opened.answer;
    let begun = opened.run;
    match answer {
        Ok(()) => walk(
            file, out, room, begun, keys, changes, heads, slots, cells, list,
        ),
        Err(_) => Ok(Err(Stop::TooLittle)),
    }
}

// Over the memory that a run is lent.
fn run_over(
    settings: Settings,
    file: &mut impl Read,
    out: &mut impl Write,
    room: u64,
    list: &mut [u8; 4103],
) -> io::Result<Result<(), Stop>> {
    let mut keys = log_feed::keys();
    let mut changes = log_feed::keys();
    let mut heads = log_feed::heads();
    let mut slots = log_feed::slots();
    let mut cells = log_feed::cells();
    run(
        settings,
        file,
        out,
        room,
        &mut keys,
        &mut changes,
        &mut heads,
        &mut slots,
        &mut cells,
        list,
    )
}

// Says what stopped a run.
fn say_stop(stdout: &mut impl Write, stop: Stop) -> io::Result<()> {
    match stop {
        Stop::NoRoom => entry_lines::say(stdout, b"44 no-room\n"),
        Stop::Changed => log_feed::say_changed(stdout),
        Stop::TooLittle => log_feed::say_too_little(stdout),
    }
}

// Whether the log has the room: a longer one is not begun, so it is measured first, by a run that writes into nothing.
fn has_room(
    rt: &impl Files,
    stdout: &mut impl Write,
    settings: Settings,
    path: &[u8],
    room: u64,
    list: &mut [u8; 4103],
) -> io::Result<bool> {
    let Some(mut file) = log_feed::open(rt, stdout, path)? else {
        return Ok(true);
    };
    match run_over(settings, &mut file, &mut io::sink(), room, list)? {
        Ok(()) => Ok(true),
        Err(stop) => {
            say_stop(stdout, stop)?;
            Ok(false)
        }
    }
}

fn write(
    rt: &impl Files,
    stdout: &mut impl Write,
    settings: Settings,
    path: &[u8],
    list: &mut [u8; 4103],
) -> io::Result<()> {
    let Some(mut file) = log_feed::open(rt, stdout, path)? else {
        return Ok(());
    };
    match run_over(settings, &mut file, stdout, u64::MAX, list)? {
        Ok(()) | Err(Stop::NoRoom) => Ok(()),
        Err(stop) => say_stop(stdout, stop),
    }
}

// A room of `None` has no limit.
fn write_within(
    rt: &impl Files,
    stdout: &mut impl Write,
    settings: Settings,
    path: &[u8],
    room: Option<u64>,
) -> io::Result<()> {
    let mut list = log_feed::section();
    let pids = settings.pids;
    if !log_feed::is_whole(rt, stdout, path, &mut list)? {
        return Ok(());
    }
    if !pids.is_with() {
        return log_feed::say_no_pid(stdout);
    }
    if let Some(room) = room {
        if !has_room(rt, stdout, settings, path, room, &mut list)? {
            return Ok(());
        }
    }
    write(rt, stdout, settings, path, &mut list)
}

// SECTIONS is the ninth word.
fn write_path(rt: &HostRuntime, settings: Settings, room: Option<u64>) -> io::Result<()> {
    let mut path = [0u8; 4096];
    let n = program_input::arg(rt, 9, &mut path);
    write_within(rt, &mut rt.stdout(), settings, &path[0..n], room)
}

fn usage(rt: &HostRuntime) -> io::Result<()> {
    entry_lines::say(
        &mut rt.stdout(),
        b"usage: write_log CAPACITY REPEATS RULE LIMIT SIZE COUNT with|without|before ROOM SECTIONS > LOG\n",
    )
}

// ROOM is the eighth word: a number, or - for no limit.
fn with_room(rt: &HostRuntime, settings: Settings) -> io::Result<()> {
    if program_input::is_word(rt, 8, b"-") {
        return write_path(rt, settings, None);
    }
    match program_input::number_at(rt, 8) {
        Some(room) => write_path(rt, settings, Some(room)),
        None => usage(rt),
    }
}

fn main(rt: HostRuntime) -> io::Result<()> {
    if program_input::arg_count(&rt) != 10 {
        return usage(&rt);
    }
    match log_words::settings(&rt) {
        Some(settings) => with_room(&rt, settings),
        None => usage(&rt),
    }
}
