// Reads standard input, records of a PID (two bytes, high byte first) and a section, and prints what the EIT sets and schedules among them say, event by event, when
// each goes out; totals last. Every record goes to an EIT collector of 64 keys and 512 cells of 4,096 bytes.
#![tactic(auto)]

ghost use Rattle.std.specs.Prelude.{◌≡◌, ◌≤◌, ◌<◌, length};

use eit_state::Eit;
use entry_lines::heads::Totals;
use entry_pages::count;
use records::Next;
use section::bytes::word;
use std::io;
use std::io::{Read, Write};

// A section on a PID goes to the collector, and what it led to is printed.
fn offer(
    stdout: &mut impl Write,
    eit: &mut Eit,
    heads: &mut [u64; 768],
    slots: &mut [u32; 18432],
    cells: &mut [u8; 2097152],
    schedule_heads: &mut [u64; 768],
    units: &mut [u32; 294912],
    list: &mut [u32; 24576],
    pid: u16,
    section: &[u8],
    totals: &mut Totals,
) -> io::Result<()>
    requires { 3 ≤ length section.now }
{
    let pushed = eit::push(
        *eit,
        heads,
        slots,
        cells,
        schedule_heads,
        units,
        0,
        Some(pid),
        section,
    );
    let answer = pushed.answer;
    *eit = pushed.eit;
    event_sets::tell(
        stdout,
        answer,
        *eit,
        heads,
        slots,
        cells,
        schedule_heads,
        units,
        list,
        pid,
        section,
        totals,
    )
}

// One record of n bytes.
fn push(
    stdout: &mut impl Write,
    eit: &mut Eit,
    heads: &mut [u64; 768],
    slots: &mut [u32; 18432],
    cells: &mut [u8; 2097152],
    schedule_heads: &mut [u64; 768],
    units: &mut [u32; 294912],
    list: &mut [u32; 24576],
    buf: &[u8],
    n: usize,
    totals: &mut Totals,
) -> io::Result<()>
    requires { (5 ≤ n) × (n ≤ 4100) × (4100 ≡ length buf.now) }
{
    count(&mut totals.sections);
    offer(
        stdout,
        eit,
        heads,
        slots,
        cells,
        schedule_heads,
        units,
        list,
        word(buf, 0),
        &buf[2..n],
        totals,
    )
}

// Every record to the end of the input. A proved loop has to end, and nothing says that an input does: the turns are counted, up to a number that no run uses up.
fn run(
    stdin: &mut impl Read,
    stdout: &mut impl Write,
    heads: &mut [u64; 768],
    slots: &mut [u32; 18432],
    cells: &mut [u8; 2097152],
    schedule_heads: &mut [u64; 768],
    units: &mut [u32; 294912],
    list: &mut [u32; 24576],
    buf: &mut [u8; 4100],
) -> io::Result<()> {
    let opened = eit::open(64, 4096, 512, heads, slots, cells, schedule_heads, units);
    let mut eit = opened.eit;
    let mut totals = Totals::default();
    for _ in 0..u64::MAX {
        match records::read_record(stdin, buf)? {
            Next::Record(n) => push(
                stdout,
                &mut eit,
                heads,
                slots,
                cells,
                schedule_heads,
                units,
                list,
                buf,
                n,
                &mut totals,
            )?,
            Next::End => break,
            Next::Cut => {
                stdout.write_all(b"cut\n")?;
                break;
            }
        }
    }
    entry_lines::heads::say_event_totals(stdout, totals)
}

// What is lent: 64 sets, 64 schedules and 512 cells, a page of 2,048 entries and a record.
fn heads() -> [u64; 768] {
    [0; 768]
}

fn slots() -> [u32; 18432] {
    [0; 18432]
}

fn cells() -> [u8; 2097152] {
    [0; 2097152]
}

fn units() -> [u32; 294912] {
    [0; 294912]
}

fn list() -> [u32; 24576] {
    [0; 24576]
}

fn record() -> [u8; 4100] {
    [0; 4100]
}

fn main(rt: HostRuntime) -> io::Result<()> {
    let mut set_heads = heads();
    let mut set_slots = slots();
    let mut bytes = cells();
    let mut schedule_heads = heads();
    let mut tables = units();
    let mut page = list();
    let mut buf = record();
    run(
        &mut rt.stdin(),
        &mut rt.stdout(),
        &mut set_heads,
        &mut set_slots,
        &mut bytes,
        &mut schedule_heads,
        &mut tables,
        &mut page,
        &mut buf,
    )
}
