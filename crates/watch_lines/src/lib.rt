// The lines that `watch` and `watch_inputs` print (docs/RULES.md, "Answers" has the numbers that they stand for). Each is an error where it could not be written.
#![tactic(auto)]

ghost use Rattle.std.specs.Prelude.{◌+◌, ◌≤◌, length};

use answers::Refusal;
use counters::Counters;
use gate_state::Answer;
use offers::Failure;
use std::io;
use std::io::Write;

// Where a record says that its section came from, neither number judged yet. A record that names no input is on input 0, and its line names none.
#[derive(Clone, Copy)]
pub struct Place {
    pub input: Option<u8>,
    pub pid: u16,
}

// The input in decimal and a space.
fn put_input(line: &mut [u8], at: usize, input: u8) -> usize
    requires { at + 4 ≤ length line.old }
    ensures { result ≤ at + 4 }
{
    let end = text::put_dec(line, at, input as u64);
    text::put(line, end, b" ")
}

// The input, where it is named, and the PID.
fn put_place(line: &mut [u8], at: usize, place: Place) -> usize
    requires { at + 8 ≤ length line.old }
    ensures { result ≤ at + 8 }
{
    let end = match place.input {
        Some(input) => put_input(line, at, input),
        None => at,
    };
    text::put_hex4(line, end, place.pid)
}

// A line that names a place alone.
pub fn say_place(stdout: &mut impl Write, word: &[u8], place: Place) -> io::Result<()>
    requires { length word.now ≤ 12 }
{
    let mut line = [0u8; 24];
    let a = text::put(&mut line, 0, word);
    let b = put_place(&mut line, a, place);
    let c = text::put(&mut line, b, b"\n");
    stdout.write_all(&line[0..c])
}

// A line of a section that was offered.
fn say_section(stdout: &mut impl Write, word: &[u8], place: Place, section: &[u8]) -> io::Result<()>
    requires { (length word.now ≤ 12) × (3 ≤ length section.now) × (length section.now ≤ 4098) }
{
    let mut line = [0u8; 48];
    let a = text::put(&mut line, 0, word);
    let b = put_place(&mut line, a, place);
    let c = text::put(&mut line, b, b" ");
    let d = text::put_hex2(&mut line, c, section[0]);
    let e = text::put(&mut line, d, b" ");
    let f = text::put_dec(&mut line, e, section.len() as u64);
    let g = text::put(&mut line, f, b"\n");
    stdout.write_all(&line[0..g])
}

// A word of the totals and its count.
fn say_count(stdout: &mut impl Write, word: &[u8], count: u64) -> io::Result<()>
    requires { length word.now ≤ 12 }
{
    let mut line = [0u8; 32];
    let a = text::put(&mut line, 0, word);
    let b = text::put_dec(&mut line, a, count);
    stdout.write_all(&line[0..b])
}

pub fn say_totals(stdout: &mut impl Write, c: Counters) -> io::Result<()> {
    say_count(stdout, b"completed ", c.completed)?;
    say_count(stdout, b" emitted ", c.emitted)?;
    say_count(stdout, b" suppressed ", c.suppressed)?;
    say_count(stdout, b" crc ", c.crc_failures)?;
    say_count(stdout, b" evicted ", c.evictions)?;
    stdout.write_all(b"\n")
}

// The line of a refused PID or input, and whether there is one. A gate that was opened here refuses nothing else; if it did, the run would end.
pub fn say_refusal(stdout: &mut impl Write, refusal: Refusal, place: Place) -> io::Result<bool> {
    match refusal {
        Refusal::BadPid => say_place(stdout, b"badpid ", place)?,
        Refusal::BadInput => say_place(stdout, b"badinput ", place)?,
        _ => return Ok(false),
    }
    Ok(true)
}

// The line of a section that failed its CRC.
fn say_failure(
    stdout: &mut impl Write,
    failure: Failure,
    place: Place,
    section: &[u8],
) -> io::Result<()>
    requires { (3 ≤ length section.now) × (length section.now ≤ 4098) }
{
    match failure {
        Failure::TooShort(_) => say_section(stdout, b"short ", place, section),
        Failure::Mismatch(_, _) => say_section(stdout, b"mismatch ", place, section),
    }
}

// The line of a section that was offered, and whether there is one.
pub fn say_answer(
    stdout: &mut impl Write,
    answer: Answer,
    place: Place,
    section: &[u8],
) -> io::Result<bool>
    requires { (3 ≤ length section.now) × (length section.now ≤ 4098) }
{
    match answer {
        Answer::Emitted => say_section(stdout, b"emitted ", place, section)?,
        Answer::Suppressed => say_section(stdout, b"suppressed ", place, section)?,
        Answer::Failed(failure) => say_failure(stdout, failure, place, section)?,
        Answer::Refused(refusal) => return say_refusal(stdout, refusal, place),
    }
    Ok(true)
}
