// What `check_log` and `write_log` do with a section list: it is judged from its start, opened again and run, section by section. What a run is lent: 65,536 rows of the gate, 256 of the
// collector and 1 MiB of cells.
#![tactic(auto)]

ghost use Rattle.std.specs.Prelude.{◌≡◌, ◌≤◌, length};

use log_list::ListError;
use log_run::Taken;
use log_state::Run;
use section::bytes::word;
use std::io;
use std::io::{Read, Write};
use std::rt::Files;

pub fn keys() -> [u64; 65536] {
    [0; 65536]
}

pub fn heads() -> [u64; 3072] {
    [0; 3072]
}

pub fn slots() -> [u32; 73728] {
    [0; 73728]
}

pub fn cells() -> [u8; 1048576] {
    [0; 1048576]
}

// A section with the five bytes before it.
pub fn section() -> [u8; 4103] {
    [0; 4103]
}

// A section of the list, n bytes with the five before it, through the run.
pub fn take(
    run: Run,
    keys: &mut [u64; 65536],
    changes: &mut [u64; 65536],
    heads: &mut [u64; 3072],
    slots: &mut [u32; 73728],
    cells: &mut [u8; 1048576],
    list: &[u8],
    n: usize,
) -> Taken
    requires { (5 ≤ n) × (n ≤ 4103) × (4103 ≡ length list.now) }
{
    log_run::take(
        run,
        keys,
        changes,
        heads,
        slots,
        cells,
        list[0],
        word(list, 1),
        &list[5..n],
    )
}

// Opens the list, or says that it cannot be opened.
pub fn open<R: Files>(rt: &R, stdout: &mut impl Write, path: &[u8]) -> io::Result<Option<R::File>> {
    let file = log_reader::open_list(rt, path);
    if file.is_none() {
        entry_lines::say(stdout, b"cannot open ")?;
        entry_lines::say(stdout, path)?;
        entry_lines::say(stdout, b"\n")?;
    }
    Ok(file)
}

// Whether the list is whole; says what it is where it is not.
fn judge(file: &mut impl Read, stdout: &mut impl Write, list: &mut [u8; 4103]) -> io::Result<bool> {
    match log_reader::judge_list(file, list)? {
        Ok(()) => return Ok(true),
        Err(ListError::TooLong) => entry_lines::say(stdout, b"42 too-long\n")?,
        Err(ListError::Cut) => entry_lines::say(stdout, b"10 sections-cut\n")?,
    }
    Ok(false)
}

// The first reading of the list.
pub fn is_whole(
    rt: &impl Files,
    stdout: &mut impl Write,
    path: &[u8],
    list: &mut [u8; 4103],
) -> io::Result<bool> {
    match open(rt, stdout, path)? {
        Some(mut file) => judge(&mut file, stdout, list),
        None => Ok(false),
    }
}

// A list that was whole a moment ago is not: the file has changed.
pub fn say_changed(stdout: &mut impl Write) -> io::Result<()> {
    entry_lines::say(stdout, b"10 sections-cut\n")
}

pub fn say_too_little(stdout: &mut impl Write) -> io::Result<()> {
    entry_lines::say(stdout, b"13 too-little\n")
}

// Sets without PIDs are given up.
pub fn say_no_pid(stdout: &mut impl Write) -> io::Result<()> {
    entry_lines::say(stdout, b"41 no-pid\n")
}
