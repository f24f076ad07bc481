// What `watch_ts` and `sections` write: the lines or the records of the sections that packets finished, gathered in a buffer and written out together.
#![tactic(auto)]

ghost use Rattle.std.specs.Prelude.{◌≡◌, ◌+◌, ◌≤◌, ◌<◌, IfOk, length};

use counters::Counters;
use std::io;
use std::io::Write;
use streams::Streams;

// How many bytes the buffer has.
pub const ROOM: usize = 65536;

// Writes out the first n bytes of the buffer.
pub fn flush(stdout: &mut impl Write, out: &[u8], n: usize) -> io::Result<()>
    requires { (length out.now ≡ 65536) × (n ≤ 65536) }
{
    stdout.write_all(&out[0..n])
}

// Bytes behind the n that the buffer has. Where they do not fit, all is written out.
pub fn emit(stdout: &mut impl Write, out: &mut [u8], n: usize, bytes: &[u8]) -> io::Result<usize>
    requires { (length out.old ≡ 65536) × (n ≤ 65536) }
    ensures { IfOk result (λ m. m ≤ 65536) }
{
    if bytes.len() <= ROOM - n {
        return Ok(text::put(out, n, bytes));
    }
    stdout.write_all(&out[0..n])?;
    stdout.write_all(bytes)?;
    Ok(0)
}

// A number in decimal: at most twenty digits.
fn put_digits(line: &mut [u8], at: usize, v: u64) -> usize
    requires { at + 20 ≤ length line.old }
    ensures { result ≤ at + 20 }
{
    text::put_dec(line, at, v)
}

// A word and a number, no line's end.
fn put_count(
    stdout: &mut impl Write,
    out: &mut [u8],
    n: usize,
    word: &[u8],
    count: u64,
) -> io::Result<usize>
    requires { (length out.old ≡ 65536) × (n ≤ 65536) × (length word.now ≤ 12) }
    ensures { IfOk result (λ m. m ≤ 65536) }
{
    let mut line = [0u8; 32];
    let a = text::put(&mut line, 0, word);
    let b = put_digits(&mut line, a, count);
    emit(stdout, out, n, &line[0..b])
}

// A line of a word and a number: `malformed AT`, `skipped N`.
pub fn put_number(
    stdout: &mut impl Write,
    out: &mut [u8],
    n: usize,
    word: &[u8],
    count: u64,
) -> io::Result<usize>
    requires { (length out.old ≡ 65536) × (n ≤ 65536) × (length word.now ≤ 12) }
    ensures { IfOk result (λ m. m ≤ 65536) }
{
    let m = put_count(stdout, out, n, word, count)?;
    emit(stdout, out, m, b"\n")
}

// `nobuffer PPPP`
pub fn put_no_buffer(
    stdout: &mut impl Write,
    out: &mut [u8],
    n: usize,
    pid: u16,
) -> io::Result<usize>
    requires { (length out.old ≡ 65536) × (n ≤ 65536) }
    ensures { IfOk result (λ m. m ≤ 65536) }
{
    let mut line = [0u8; 16];
    let a = text::put(&mut line, 0, b"nobuffer ");
    let b = text::put_hex4(&mut line, a, pid);
    let c = text::put(&mut line, b, b"\n");
    emit(stdout, out, n, &line[0..c])
}

// `emitted PPPP TT L`
fn put_section(
    stdout: &mut impl Write,
    out: &mut [u8],
    n: usize,
    word: &[u8],
    pid: u16,
    section: &[u8],
) -> io::Result<usize>
    requires { (length out.old ≡ 65536) × (n ≤ 65536) × (length word.now ≤ 12) × (1 ≤ length section.now) }
    ensures { IfOk result (λ m. m ≤ 65536) }
{
    let mut line = [0u8; 48];
    let a = text::put(&mut line, 0, word);
    let b = text::put_hex4(&mut line, a, pid);
    let c = text::put(&mut line, b, b" ");
    let d = text::put_hex2(&mut line, c, section[0]);
    let e = text::put(&mut line, d, b" ");
    let f = put_digits(&mut line, e, section.len() as u64);
    let g = text::put(&mut line, f, b"\n");
    emit(stdout, out, n, &line[0..g])
}

// The line of a section, by the number that its place tells. A finished section has bytes.
fn put_answer(
    stdout: &mut impl Write,
    out: &mut [u8],
    n: usize,
    answer: u64,
    pid: u16,
    section: &[u8],
) -> io::Result<usize>
    requires { (length out.old ≡ 65536) × (n ≤ 65536) }
    ensures { IfOk result (λ m. m ≤ 65536) }
{
    if section.is_empty() {
        return Ok(n);
    }
    match answer {
        1 => put_section(stdout, out, n, b"emitted ", pid, section),
        2 => put_section(stdout, out, n, b"suppressed ", pid, section),
        3 => put_section(stdout, out, n, b"mismatch ", pid, section),
        _ => put_section(stdout, out, n, b"short ", pid, section),
    }
}

// The record of a section: its PID, high byte first, and its bytes.
fn put_record(
    stdout: &mut impl Write,
    out: &mut [u8],
    n: usize,
    pid: u16,
    section: &[u8],
) -> io::Result<usize>
    requires { (length out.old ≡ 65536) × (n ≤ 65536) }
    ensures { IfOk result (λ m. m ≤ 65536) }
{
    let head = [(pid / 256) as u8, (pid % 256) as u8];
    let m = emit(stdout, out, n, &head)?;
    emit(stdout, out, m, section)
}

fn put_one(
    stdout: &mut impl Write,
    lines: bool,
    out: &mut [u8],
    n: usize,
    answer: u64,
    pid: u16,
    section: &[u8],
) -> io::Result<usize>
    requires { (length out.old ≡ 65536) × (n ≤ 65536) }
    ensures { IfOk result (λ m. m ≤ 65536) }
{
    if lines {
        return put_answer(stdout, out, n, answer, pid, section);
    }
    put_record(stdout, out, n, pid, section)
}

// The section of place k.
fn put_place<'a>(
    stdout: &mut impl Write,
    lines: bool,
    out: &mut [u8],
    n: usize,
    places: &[u64],
    k: usize,
    pid: u16,
    packet: &'a [u8],
    buffers: &'a [u8],
) -> io::Result<usize>
    requires { (length out.old ≡ 65536) × (n ≤ 65536) × (length places.now ≡ 384) × (k < 64) }
    ensures { IfOk result (λ m. m ≤ 65536) }
{
    let place = demux_places::place_at(places, k);
    put_one(
        stdout,
        lines,
        out,
        n,
        places[k * 6],
        pid,
        demux_places::section_at(packet, buffers, place),
    )
}

// How many places there are to tell of so many sections.
fn listed(count: usize) -> usize
    ensures { result ≤ 64 }
{
    count.min(64)
}

// The sections that a packet finished, in the order of their places.
pub fn put_sections<'a>(
    stdout: &mut impl Write,
    lines: bool,
    out: &mut [u8],
    n: usize,
    places: &[u64],
    count: usize,
    pid: u16,
    packet: &'a [u8],
    buffers: &'a [u8],
) -> io::Result<usize>
    requires { (length out.old ≡ 65536) × (n ≤ 65536) × (length places.now ≡ 384) }
    ensures { IfOk result (λ m. m ≤ 65536) }
{
    let mut m = n;
    for k in 0..listed(count) {
        m = put_place(stdout, lines, out, m, places, k, pid, packet, buffers)?;
    }
    Ok(m)
}

// The first half of the totals.
fn put_packets(
    stdout: &mut impl Write,
    out: &mut [u8],
    n: usize,
    s: Streams,
    completed: u64,
) -> io::Result<usize>
    requires { (length out.old ≡ 65536) × (n ≤ 65536) }
    ensures { IfOk result (λ m. m ≤ 65536) }
{
    let a = put_count(stdout, out, n, b"packets ", s.packets)?;
    let b = put_count(stdout, out, a, b" malformed ", s.malformed)?;
    put_count(stdout, out, b, b" completed ", completed)
}

// The totals, the last line.
pub fn put_totals(
    stdout: &mut impl Write,
    out: &mut [u8],
    n: usize,
    s: Streams,
    c: Counters,
) -> io::Result<usize>
    requires { (length out.old ≡ 65536) × (n ≤ 65536) }
    ensures { IfOk result (λ m. m ≤ 65536) }
{
    let a = put_packets(stdout, out, n, s, c.completed)?;
    let e = put_count(stdout, out, a, b" emitted ", c.emitted)?;
    let f = put_count(stdout, out, e, b" suppressed ", c.suppressed)?;
    let g = put_count(stdout, out, f, b" crc ", c.crc_failures)?;
    put_number(stdout, out, g, b" evicted ", c.evictions)
}
