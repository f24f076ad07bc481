// Reading a transport stream from standard input in blocks (docs/RULES.md, "Packets"): where in the block it stands, what of it is a packet, and what `watch_ts` and
// `sections` write. No gate here.
#![tactic(auto)]

ghost use Rattle.std.specs.Prelude.{◌≡◌, ◌+◌, ◌-◌, ◌≤◌, IfOk, length};
ghost use Rattle.stream_cursor.specs.Cursor.{Inside, StepOk, is_packet};

use alignment::{Next, Step};
use blocks::Window;
use counters::Counters;
use demux_state::Answer;
use std::io;
use std::io::{Read, Write};
use streams::Streams;

// The bytes from..to of the block are not used up, and the input has ended behind them where `last`; the first of them is byte `at` of the input. `passing`: bytes are
// passed over, so many so far. `filled` bytes wait to be written. `more`: there may be another packet.
#[derive(Clone, Copy)]
pub struct Cursor {
    pub from: usize,
    pub to: usize,
    pub last: bool,
    pub at: u64,
    pub passing: bool,
    pub skipped: u64,
    pub filled: usize,
    pub more: bool,
}

// A place of the input further on. Past 2^64 bytes it stays.
fn further(at: u64, by: usize) -> u64
    requires { by ≤ 65724 }
{
    if at < 18446744073709485000 {
        return at + by as u64;
    }
    at
}

// What stands at the front of the bytes that are not used up.
pub fn look(block: &[u8], c: Cursor) -> Step
    requires { (length block.now ≡ 65724) × Inside c }
    ensures { StepOk c result }
{
    let from = c.from;
    let to = c.to;
    alignment::look(&block[from..to], c.passing, c.last)
}

// Whether it is a packet, in its place or not.
pub fn is_packet(next: Next) -> bool
    ensures { result ≡ is_packet next }
{
    match next {
        Next::Packet => true,
        Next::Loose => true,
        Next::Found => false,
        Next::More => false,
        Next::Cut => false,
        Next::Over => false,
    }
}

// `by` bytes are used up.
fn moved(c: Cursor, by: usize) -> Cursor
    requires { Inside c × (by ≤ c.to - c.from) }
    ensures { Inside result }
{
    Cursor {
        from: c.from + by,
        to: c.to,
        last: c.last,
        at: further(c.at, by),
        passing: c.passing,
        skipped: c.skipped,
        filled: c.filled,
        more: c.more,
    }
}

// Bytes are passed over, so many so far; or none are.
fn passing(c: Cursor, on: bool, skipped: u64) -> Cursor
    requires { Inside c }
    ensures { Inside result }
{
    Cursor {
        from: c.from,
        to: c.to,
        last: c.last,
        at: c.at,
        passing: on,
        skipped,
        filled: c.filled,
        more: c.more,
    }
}

// So many bytes wait to be written.
pub fn filled(c: Cursor, n: usize, more: bool) -> Cursor
    requires { Inside c × (n ≤ 65536) }
    ensures { Inside result }
{
    Cursor {
        from: c.from,
        to: c.to,
        last: c.last,
        at: c.at,
        passing: c.passing,
        skipped: c.skipped,
        filled: n,
        more,
    }
}

// Behind a packet that was fed: its 188 bytes are used up, or, where it did not begin with the sync byte, its first, and bytes are passed over.
pub fn behind(c: Cursor, next: Next) -> Cursor
    requires { Inside c × (188 ≤ c.to - c.from) }
    ensures { Inside result }
{
    match next {
        Next::Packet => moved(c, 188),
        Next::Loose => passing(moved(c, 1), true, 1),
        Next::Found => c,
        Next::More => c,
        Next::Cut => c,
        Next::Over => c,
    }
}

// The place up to which bytes were passed over.
fn found(
    stdout: &mut impl Write,
    lines: bool,
    out: &mut [u8],
    c: Cursor,
    used: usize,
) -> io::Result<Cursor>
    requires { (length out.old ≡ 65536) × Inside c × (used ≤ c.to - c.from) }
    ensures { IfOk result Inside }
{
    let then = passing(moved(c, used), false, 0);
    if lines {
        let skipped = further(c.skipped, used);
        let n = stream_lines::put_number(stdout, out, c.filled, b"skipped ", skipped)?;
        return Ok(filled(then, n, true));
    }
    Ok(then)
}

// Fewer than 188 bytes, the last of the input.
fn cut(stdout: &mut impl Write, lines: bool, out: &mut [u8], c: Cursor) -> io::Result<Cursor>
    requires { (length out.old ≡ 65536) × Inside c }
    ensures { IfOk result Inside }
{
    if lines {
        let n = stream_lines::emit(stdout, out, c.filled, b"cut\n")?;
        return Ok(filled(c, n, false));
    }
    Ok(filled(c, c.filled, false))
}

// What is there is written out, and more of the input is read behind the bytes that are kept.
fn refill(
    stdin: &mut impl Read,
    stdout: &mut impl Write,
    out: &[u8],
    block: &mut [u8],
    c: Cursor,
    used: usize,
) -> io::Result<Cursor>
    requires { (length out.now ≡ 65536) × (length block.old ≡ 65724) × Inside c × (used ≤ c.to - c.from) × (c.to - c.from ≤ used + 188) }
    ensures { IfOk result Inside }
{
    stream_lines::flush(stdout, out, c.filled)?;
    let from = c.from + used;
    let window = blocks::refill(
        stdin,
        block,
        Window {
            from,
            to: c.to,
            last: c.last,
        },
    )?;
    Ok(Cursor {
        from: window.from,
        to: window.to,
        last: window.last,
        at: further(c.at, used),
        passing: c.passing,
        skipped: further(c.skipped, used),
        filled: 0,
        more: true,
    })
}

// What is no packet.
pub fn go_on(
    stdin: &mut impl Read,
    stdout: &mut impl Write,
    lines: bool,
    out: &mut [u8],
    block: &mut [u8],
    c: Cursor,
    step: Step,
) -> io::Result<Cursor>
    requires { (length out.old ≡ 65536) × (length block.old ≡ 65724) × Inside c × StepOk c step }
    ensures { IfOk result Inside }
{
    let used = step.used;
    let next = step.next;
    match next {
        Next::Packet => Ok(filled(c, c.filled, false)),
        Next::Loose => Ok(filled(c, c.filled, false)),
        Next::Found => found(stdout, lines, out, c, used),
        Next::More => refill(stdin, stdout, out, block, c, used),
        Next::Cut => cut(stdout, lines, out, c),
        Next::Over => Ok(filled(c, c.filled, false)),
    }
}

// The PID of a packet: the last 13 bits of its second and third byte.
fn pid_of(packet: &[u8]) -> u16
    requires { 188 ≡ length packet.now }
{
    section::bytes::word(packet, 1) % 8192
}

// What a packet came to, in lines or records.
pub fn tell<'a>(
    stdout: &mut impl Write,
    lines: bool,
    out: &mut [u8],
    c: Cursor,
    answer: Answer,
    places: &[u64],
    packet: &'a [u8],
    buffers: &'a [u8],
) -> io::Result<usize>
    requires { (length out.old ≡ 65536) × Inside c × (length places.now ≡ 384) × (188 ≡ length packet.now) }
    ensures { IfOk result (λ n. n ≤ 65536) }
{
    match answer {
        Answer::Taken(count) => stream_lines::put_sections(
            stdout,
            lines,
            out,
            c.filled,
            places,
            count,
            pid_of(packet),
            packet,
            buffers,
        ),
        Answer::Malformed => malformed(stdout, lines, out, c),
        Answer::NoBuffer => no_buffer(stdout, lines, out, c, pid_of(packet)),
        Answer::Refused(_) => Ok(c.filled),
    }
}

fn malformed(stdout: &mut impl Write, lines: bool, out: &mut [u8], c: Cursor) -> io::Result<usize>
    requires { (length out.old ≡ 65536) × Inside c }
    ensures { IfOk result (λ n. n ≤ 65536) }
{
    if lines {
        return stream_lines::put_number(stdout, out, c.filled, b"malformed ", c.at);
    }
    Ok(c.filled)
}

fn no_buffer(
    stdout: &mut impl Write,
    lines: bool,
    out: &mut [u8],
    c: Cursor,
    pid: u16,
) -> io::Result<usize>
    requires { (length out.old ≡ 65536) × Inside c }
    ensures { IfOk result (λ n. n ≤ 65536) }
{
    if lines {
        return stream_lines::put_no_buffer(stdout, out, c.filled, pid);
    }
    Ok(c.filled)
}

// The totals, and what still waits is written out.
pub fn finish(
    stdout: &mut impl Write,
    lines: bool,
    out: &mut [u8],
    n: usize,
    s: Streams,
    counters: Counters,
) -> io::Result<()>
    requires { (length out.old ≡ 65536) × (n ≤ 65536) }
{
    if lines {
        let m = stream_lines::put_totals(stdout, out, n, s, counters)?;
        return stream_lines::flush(stdout, out, m);
    }
    stream_lines::flush(stdout, out, n)
}
