// Compares two files, each a PID in two bytes (high byte first; FFFF, for none, is refused with 41) and then the sections of a set or a schedule to the end, and says where
// they differ: `compare_guides set|schedule FIRST SECOND [ROOM]`, ROOM how many entries the list may have.
#![tactic(auto)]

ghost use Rattle.std.specs.Prelude.{◌≡◌, ◌≤◌, length, IfOk, IfSome};

use guide_lines::say;
use guide_report::compare_files;
use program_input::{arg, arg_count, number_of, read_full};
use std::env::Env;
use std::io::{Read, Write};
use std::rt::Files;
use std::{fs, io};

// The most entries of two schedules: 16 tables of 256 sections.
const MOST_ENTRIES: usize = 4096;

// A buffer has room for the PID, 2,097,152 bytes of sections, and one byte too many.
const BUFFER: usize = 2097155;

// Why a file is not compared.
#[derive(Clone, Copy)]
enum Unread {
    Unreadable,
    TooLong,
}

// ---- the arguments

// Whether schedules are compared; `None` where the word is neither.
fn asked_schedules(rt: &impl Env) -> Option<bool> {
    let mut text = [0u8; 16];
    let n = arg(rt, 1, &mut text);
    match &text[..n] {
        b"set" => Some(false),
        b"schedule" => Some(true),
        _ => None,
    }
}

// Decimal digits, at most MOST_ENTRIES.
fn room_of(text: &[u8]) -> Option<usize>
    ensures { IfSome result (λ n. n ≤ 4096) }
{
    let n = number_of(text)?;
    if n <= MOST_ENTRIES as u64 {
        Some(n as usize)
    } else {
        None
    }
}

// The room of the list, all there is where no argument says it.
fn asked_room(rt: &impl Env) -> Option<usize>
    ensures { IfSome result (λ n. n ≤ 4096) }
{
    let n = arg_count(rt);
    if n == 4 {
        return Some(MOST_ENTRIES);
    }
    if n != 5 {
        return None;
    }
    let mut text = [0u8; 32];
    let k = arg(rt, 4, &mut text);
    room_of(&text[..k])
}

// ---- the files: how many bytes they hold, a PID among them

// The file that an argument names. A path that is no text names none.
fn read_file(
    rt: &(impl Env + Files),
    argument: usize,
    buf: &mut [u8],
) -> io::Result<Result<usize, Unread>>
    requires { 2097155 ≡ length buf.old }
    ensures { IfOk result (λ r. IfOk r (λ n. n ≤ 2097155)) }
{
    let mut path = [0u8; 4096];
    let n = arg(rt, argument, &mut path);
    match str::from_utf8(&path[..n]) {
        Ok(path) => read_path(rt, path, buf),
        Err(_) => Ok(Err(Unread::Unreadable)),
    }
}

fn read_path(rt: &impl Files, path: &str, buf: &mut [u8]) -> io::Result<Result<usize, Unread>>
    requires { 2097155 ≡ length buf.old }
    ensures { IfOk result (λ r. IfOk r (λ n. n ≤ 2097155)) }
{
    match fs::open(rt, path) {
        Ok(mut file) => read_open(&mut file, buf),
        Err(_) => Ok(Err(Unread::Unreadable)),
    }
}

// A folder opens and cannot be read, which a read of nothing tells.
fn read_open(file: &mut impl Read, buf: &mut [u8]) -> io::Result<Result<usize, Unread>>
    requires { 2097155 ≡ length buf.old }
    ensures { IfOk result (λ r. IfOk r (λ n. n ≤ 2097155)) }
{
    if file.read(&mut []).is_err() {
        return Ok(Err(Unread::Unreadable));
    }
    let got = read_full(file, buf)?;
    if got < BUFFER {
        Ok(Ok(got))
    } else {
        Ok(Err(Unread::TooLong))
    }
}

// ---- the run

fn usage(stdout: &mut impl Write) -> io::Result<()> {
    say(
        stdout,
        b"usage: compare_guides set|schedule FIRST SECOND [ROOM]\n",
    )
}

// The whole line in one write.
fn say_unread(
    stdout: &mut impl Write,
    why: Unread,
    unreadable: &[u8],
    too_long: &[u8],
) -> io::Result<()> {
    match why {
        Unread::Unreadable => say(stdout, unreadable),
        Unread::TooLong => say(stdout, too_long),
    }
}

fn run(
    rt: &(impl Env + Files),
    stdout: &mut impl Write,
    first: &mut [u8; 2097155],
    second: &mut [u8; 2097155],
    list: &mut [u32; 16384],
) -> io::Result<()> {
    let Some(schedules) = asked_schedules(rt) else {
        return usage(stdout);
    };
    let Some(entries) = asked_room(rt) else {
        return usage(stdout);
    };
    let n = match read_file(rt, 2, first)? {
        Ok(n) => n,
        Err(why) => return say_unread(stdout, why, b"unreadable first\n", b"too long first\n"),
    };
    let m = match read_file(rt, 3, second)? {
        Ok(m) => m,
        Err(why) => return say_unread(stdout, why, b"unreadable second\n", b"too long second\n"),
    };
    compare_files(
        stdout,
        schedules,
        &first[..n],
        &second[..m],
        &mut list[..4 * entries],
    )
}

fn main(rt: HostRuntime) -> io::Result<()> {
    let mut first = [0u8; 2097155];
    let mut second = [0u8; 2097155];
    let mut list = [0u32; 16384];
    run(&rt, &mut rt.stdout(), &mut first, &mut second, &mut list)
}
