// Reads standard input, records of a PID (two bytes, high byte first) and a section, and prints what the networks, bouquets and services among them say, entry by entry,
// when each set goes out; totals last. Every record goes to a set collector of 64 keys and 512 cells of 4,096 bytes. With an argument, nit, bat or sdt, every set is read by
// that reader.
#![tactic(auto)]

ghost use Rattle.std.specs.Prelude.{◌≡◌, ◌≤◌, ◌<◌, length};

use entry_lines::heads::Totals;
use entry_pages::count;
use records::Next;
use rules_networks::Table;
use section::bytes::word;
use std::env::Env;
use std::io;
use std::io::{Read, Write};
use store::Sets;
use table_sets::Asked;

// A section on a PID goes to the collector, and what it led to is printed.
fn offer(
    stdout: &mut impl Write,
    asked: Asked,
    sets: &mut Sets,
    heads: &mut [u64; 768],
    slots: &mut [u32; 18432],
    cells: &mut [u8; 2097152],
    list: &mut [u32; 24576],
    pid: u16,
    section: &[u8],
    totals: &mut Totals,
) -> io::Result<()>
    requires { 3 ≤ length section.now }
{
    let pushed = sets::push(*sets, heads, slots, cells, 0, Some(pid), section);
    let answer = pushed.answer;
    *sets = pushed.sets;
    table_sets::tell(
        stdout, answer, asked, *sets, heads, slots, cells, list, pid, section, totals,
    )
}

// One record of n bytes.
fn push(
    stdout: &mut impl Write,
    asked: Asked,
    sets: &mut Sets,
    heads: &mut [u64; 768],
    slots: &mut [u32; 18432],
    cells: &mut [u8; 2097152],
    list: &mut [u32; 24576],
    buf: &[u8],
    n: usize,
    totals: &mut Totals,
) -> io::Result<()>
    requires { (5 ≤ n) × (n ≤ 4100) × (4100 ≡ length buf.now) }
{
    count(&mut totals.sections);
    offer(
        stdout,
        asked,
        sets,
        heads,
        slots,
        cells,
        list,
        word(buf, 0),
        &buf[2..n],
        totals,
    )
}

// Every record to the end of the input. A proved loop has to end, and nothing says that an input does: the turns are counted, up to a number that no run uses up.
fn run(
    stdin: &mut impl Read,
    stdout: &mut impl Write,
    asked: Asked,
    heads: &mut [u64; 768],
    slots: &mut [u32; 18432],
    cells: &mut [u8; 2097152],
    list: &mut [u32; 24576],
    buf: &mut [u8; 4100],
) -> io::Result<()> {
    let opened = sets::open(64, 4096, 512, heads, slots, cells);
    let mut sets = opened.sets;
    let mut totals = Totals::default();
    for _ in 0..u64::MAX {
        match records::read_record(stdin, buf)? {
            Next::Record(n) => push(
                stdout,
                asked,
                &mut sets,
                heads,
                slots,
                cells,
                list,
                buf,
                n,
                &mut totals,
            )?,
            Next::End => break,
            Next::Cut => {
                stdout.write_all(b"cut\n")?;
                break;
            }
        }
    }
    entry_lines::heads::say_table_totals(stdout, totals)
}

// What is lent: 64 sets and 512 cells, a page of 2,048 entries and a record.
fn heads() -> [u64; 768] {
    [0; 768]
}

fn slots() -> [u32; 18432] {
    [0; 18432]
}

fn cells() -> [u8; 2097152] {
    [0; 2097152]
}

fn list() -> [u32; 24576] {
    [0; 24576]
}

fn record() -> [u8; 4100] {
    [0; 4100]
}

// Reads to the end of the input.
fn read_all(stdin: &mut impl Read, stdout: &mut impl Write, asked: Asked) -> io::Result<()> {
    let mut set_heads = heads();
    let mut set_slots = slots();
    let mut bytes = cells();
    let mut page = list();
    let mut buf = record();
    run(
        stdin,
        stdout,
        asked,
        &mut set_heads,
        &mut set_slots,
        &mut bytes,
        &mut page,
        &mut buf,
    )
}

fn reader_named(text: &[u8]) -> Option<Asked> {
    match text {
        b"nit" => Some(Asked::Always(Table::Nit)),
        b"bat" => Some(Asked::Always(Table::Bat)),
        b"sdt" => Some(Asked::Always(Table::Sdt)),
        _ => None,
    }
}

// What the arguments ask for: the name of a reader, or none; `None` where they ask for something else.
fn argument(rt: &impl Env) -> Option<Asked> {
    let n = program_input::arg_count(rt);
    if n <= 1 {
        return Some(Asked::ByTable);
    }
    if n != 2 {
        return None;
    }
    let mut text = [0u8; 16];
    let k = program_input::arg(rt, 1, &mut text);
    reader_named(&text[..k])
}

fn main(rt: HostRuntime) -> io::Result<()> {
    match argument(&rt) {
        Some(asked) => read_all(&mut rt.stdin(), &mut rt.stdout(), asked),
        None => entry_lines::say(&mut rt.stdout(), b"usage: tables [nit|bat|sdt]\n"),
    }
}
