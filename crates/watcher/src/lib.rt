// What `watch` and `watch_inputs` do: they read records from standard input, a PID (two bytes, high byte first) and a section, or an input (one byte) before
// these, and say of each record what the gate makes of it, a line for each, and the totals last. Default settings, so complete PATs are followed, but a gate of
// 512 keys; sixteen watch records opened alike, of which `watch` uses the first. One record is held at a time, so standard input may be of any length.
#![tactic(auto)]

ghost use Rattle.std.specs.Prelude.{◌≡◌, ◌≤◌, ◌<◌, IfOk, IfSome, length};
ghost use Rattle.records.specs.Next.{Within};

use answers::Refusal;
use counters::Counters;
use gate_state::{Gate, Settings};
use records::Next;
use section::bytes::{wide, word};
use section::ids::Origin;
use std::io;
use std::io::{Read, Write};
use watch_lines::Place;

// The rest of a record whose input was read: it may not end here.
fn inside(rest: Next) -> Next
    requires { Within rest }
    ensures { Within result }
{
    match rest {
        Next::End => Next::Cut,
        _ => rest,
    }
}

// Reads a record, of which all but the input comes to the start of buf.
fn read(stdin: &mut impl Read, inputs: bool, buf: &mut [u8]) -> io::Result<(Option<u8>, Next)>
    requires { 4100 ≡ length buf.old }
    ensures { IfOk result (λ came. Within came.1) }
{
    if !inputs {
        return Ok((None, records::read_record(stdin, buf)?));
    }
    let input = records::read_input(stdin)?;
    if input.is_none() {
        return Ok((None, Next::End));
    }
    Ok((input, inside(records::read_record(stdin, buf)?)))
}

fn input_of(place: Place) -> u8 {
    place.input.unwrap_or(0)
}

// Which of the sixteen watch records is that of a place; 12, then 37, whatever the watch of a record says.
fn find(place: Place) -> Result<usize, Refusal>
    ensures { IfOk result (λ i. i ≤ 15) }
{
    let from = Origin::make(input_of(place), place.pid)?;
    Ok(wide(from.input.0))
}

// What the watch of a place's input says of its PID: which of the sixteen records watches it, `None` where it is not watched.
fn ask(watches: &[u64], place: Place) -> Result<Option<usize>, Refusal>
    requires { 6368 ≡ length watches.now }
    ensures { IfOk result (λ watched. IfSome watched (λ i. i ≤ 15)) }
{
    let i = find(place)?;
    let watched = watched::ask(&watches[i * 398..i * 398 + 398], place.pid)?;
    Ok(watched.then_some(i))
}

// A section on a watched PID goes to the gate with the record of its input, the i-th of the sixteen. Whether there may be another record.
fn offer(
    stdout: &mut impl Write,
    gate: &mut Gate,
    counters: &mut Counters,
    keys: &mut [u64; 512],
    changes: &mut [u64; 512],
    watches: &mut [u64],
    slots: &mut [u32],
    cells: &mut [u8],
    i: usize,
    place: Place,
    section: &[u8],
) -> io::Result<bool>
    requires value { (6368 ≡ length watches.old) × (4608 ≡ length slots.old) × (4194304 ≡ length cells.old) × (i ≤ 15) }
    requires in_bounds { (3 ≤ length section.now) × (length section.now ≤ 4098) }
{
    let offered = gate_pats::offer(
        *gate,
        *counters,
        keys,
        changes,
        &mut watches[i * 398..i * 398 + 398],
        &mut slots[i * 288..i * 288 + 288],
        &mut cells[i * 262_144..i * 262_144 + 262_144],
        input_of(place),
        place.pid,
        section,
    );
    let answer = offered.answer;
    *gate = offered.gate;
    *counters = offered.counters;
    watch_lines::say_answer(stdout, answer, place, section)
}

// One record, of which all but the input is the first n bytes of buf, by what the watch says.
fn judge(
    stdout: &mut impl Write,
    gate: &mut Gate,
    counters: &mut Counters,
    keys: &mut [u64; 512],
    changes: &mut [u64; 512],
    watches: &mut [u64],
    slots: &mut [u32],
    cells: &mut [u8],
    input: Option<u8>,
    buf: &[u8],
    n: usize,
) -> io::Result<bool>
    requires value { (6368 ≡ length watches.old) × (4608 ≡ length slots.old) × (4194304 ≡ length cells.old) }
    requires le_n { (5 ≤ n) × (n ≤ 4100) × (4100 ≡ length buf.now) }
{
    let place = Place {
        input,
        pid: word(buf, 0),
    };
    match ask(watches, place) {
        Ok(Some(i)) => offer(
            stdout,
            gate,
            counters,
            keys,
            changes,
            watches,
            slots,
            cells,
            i,
            place,
            &buf[2..n],
        ),
        Ok(None) => {
            watch_lines::say_place(stdout, b"unwatched ", place)?;
            Ok(true)
        }
        Err(refusal) => watch_lines::say_refusal(stdout, refusal, place),
    }
}

// Opens the watch record of one of the sixteen inputs.
fn open_watch(settings: Settings, watches: &mut [u64], slots: &[u32], cells: &[u8], i: usize)
    requires { (6368 ≡ length watches.old) × (4608 ≡ length slots.now) × (4194304 ≡ length cells.now) × (i ≤ 15) }
{
    let none = [0u16; 1];
    // Enough is lent, and no PID is asked for: it is not refused.
    let _ = gate_pats::open_record(
        settings,
        &none[0..0],
        &mut watches[i * 398..i * 398 + 398],
        &slots[i * 288..i * 288 + 288],
        &cells[i * 262_144..i * 262_144 + 262_144],
    );
}

// Opens the watch records of all inputs alike.
fn open_watches(settings: Settings, watches: &mut [u64], slots: &[u32], cells: &[u8])
    requires { (6368 ≡ length watches.old) × (4608 ≡ length slots.now) × (4194304 ≡ length cells.now) }
{
    for i in 0..16 {
        open_watch(settings, watches, slots, cells, i);
    }
}

// A proved loop has to end, and nothing says that standard input does: the turns are counted, up to a number that no run uses up.
fn all(
    stdin: &mut impl Read,
    stdout: &mut impl Write,
    inputs: bool,
    keys: &mut [u64; 512],
    changes: &mut [u64; 512],
    watches: &mut [u64; 6368],
    slots: &mut [u32; 4608],
    cells: &mut [u8; 4_194_304],
    buf: &mut [u8; 4100],
) -> io::Result<()> {
    let mut settings = Settings::by_default();
    settings.capacity = 512;
    let none = [0u16; 1];
    let opened = gate_pats::open(settings, &none[0..0], keys, changes, watches, slots, cells);
    open_watches(settings, watches, slots, cells);
    let mut gate = opened.gate;
    let mut counters = opened.counters;
    for _ in 0..u64::MAX {
        match read(stdin, inputs, buf)? {
            (input, Next::Record(n)) => {
                let more = judge(
                    stdout,
                    &mut gate,
                    &mut counters,
                    keys,
                    changes,
                    watches,
                    slots,
                    cells,
                    input,
                    buf,
                    n,
                )?;
                if !more {
                    break;
                }
            }
            (_, Next::End) => break,
            (_, Next::Cut) => {
                stdout.write_all(b"cut\n")?;
                break;
            }
        }
    }
    watch_lines::say_totals(stdout, counters)
}

// All records of standard input, each with its input where `inputs` says so.
pub fn run(stdin: &mut impl Read, stdout: &mut impl Write, inputs: bool) -> io::Result<()> {
    let mut keys = [0u64; 512];
    let mut changes = [0u64; 512];
    let mut watches = [0u64; 6368];
    let mut slots = [0u32; 4608];
    let mut cells = [0u8; 4_194_304];
    let mut buf = [0u8; 4100];
    all(
        stdin,
        stdout,
        inputs,
        &mut keys,
        &mut changes,
        &mut watches,
        &mut slots,
        &mut cells,
        &mut buf,
    )
}
