// One step of `counts`: the packet at the front of the block is fed to the gate with an index, the sections that it finished go to the collectors, and a line is
// written where the stream tells a time; or what is no packet is passed over, or more is read.
#![tactic(auto)]

ghost use Rattle.std.specs.Prelude.{◌≡◌, ◌+◌, ◌*◌, ◌-◌, ◌≤◌, IfOk, length};
ghost use Rattle.stream_cursor.specs.Cursor.{Inside};
ghost use Rattle.counts_step.specs.Step.{no_buffer_counted};

use alignment::Next;
use counters::Counters;
use counts_collect::Collectors;
use counts_times::Last;
use demux_state::Answer;
use gate_state::Gate;
use std::io;
use std::io::{Read, Write};
use stream_cursor::Cursor;
use streams::Streams;

// Gate, streams and collectors between two packets, and when the last line was written.
#[derive(Clone, Copy)]
pub struct Held {
    pub gate: Gate,
    pub counters: Counters,
    pub streams: Streams,
    pub collectors: Collectors,
    pub last: Last,
}

// What a turn leaves.
#[derive(Clone, Copy)]
pub struct Turn {
    pub held: Held,
    pub cursor: Cursor,
}

// Where the clock of a stream is (EN 300 468, 5.1.3).
const CLOCK_PID: u16 = 0x14;

fn pid_of(packet: &[u8]) -> u16
    requires { 188 ≡ length packet.now }
{
    section::bytes::word(packet, 1) % 8192
}

// How many places tell of a section.
fn listed(answer: Answer) -> usize
    ensures { result ≤ 64 }
{
    answer.finished().min(64)
}

const NO_BUFFER: u8 = 43;

// A packet that found no section buffer is counted.
fn count_no_buffer(tally: &mut [u64; 10], answer: Answer)
    ensures { tally.new ≡ no_buffer_counted tally.old answer }
{
    if answer.number() == NO_BUFFER {
        tallies::count(tally, tallies::NO_BUFFER);
    }
}

// What the totals are now, in a line where the packet has a clock and one is due.
fn tell<'a>(
    stdout: &mut impl Write,
    held: Held,
    tally: &[u64; 10],
    interval: u64,
    places: &[u64],
    count: usize,
    packet: &'a [u8],
    buffers: &'a [u8],
) -> io::Result<Last>
    requires { (count * 6 ≤ length places.now) × (188 ≡ length packet.now) }
{
    let last = held.last;
    if pid_of(packet) == CLOCK_PID {
        let c = held.collectors;
        let numbers = counts_lines::numbers(held.streams, held.counters, tally, c.sets, c.eit);
        return counts_tell::tell(
            stdout, last, interval, &numbers, places, count, packet, buffers,
        );
    }
    Ok(last)
}

// The packet at the front of the bytes that are not used up is fed to the gate, counted and told.
fn take(
    stdout: &mut impl Write,
    held: Held,
    keys: &mut [u64; 16384],
    changes: &mut [u64; 16384],
    buckets: &mut [u64; 16384],
    links: &mut [u64; 16384],
    words: &mut [u64; 398],
    pat_slots: &mut [u32; 288],
    pat_cells: &mut [u8; 262_144],
    pids: &mut [u64; 32768],
    buffers: &mut [u8; 1_097_728],
    places: &mut [u64; 384],
    heads: &mut [u64; 1536],
    slots: &mut [u32; 36864],
    cells: &mut [u8; 1_048_576],
    eit_heads: &mut [u64; 1536],
    eit_slots: &mut [u32; 36864],
    eit_cells: &mut [u8; 1_048_576],
    schedule_heads: &mut [u64; 1536],
    units: &mut [u32; 589_824],
    tally: &mut [u64; 10],
    interval: u64,
    block: &[u8],
    c: Cursor,
    next: Next,
) -> io::Result<Turn>
    requires { (length block.now ≡ 65724) × Inside c × (188 ≤ c.to - c.from) }
    ensures { IfOk result (λ t. Inside t.cursor) }
{
    let from = c.from;
    let packet = &block[from..from + 188];
    let fed = demux_indexed::feed(
        held.gate,
        held.counters,
        held.streams,
        keys,
        changes,
        buckets,
        links,
        words,
        pat_slots,
        pat_cells,
        pids,
        buffers,
        0,
        packet,
        places,
    );
    let answer = fed.answer;
    let gate = fed.gate;
    let counters = fed.counters;
    let streams = fed.streams;
    count_no_buffer(tally, answer);
    let count = listed(answer);
    let collectors = counts_places::collect_all(
        held.collectors,
        heads,
        slots,
        cells,
        eit_heads,
        eit_slots,
        eit_cells,
        schedule_heads,
        units,
        tally,
        places,
        count,
        pid_of(packet),
        packet,
        buffers,
    );
    let before = held.last;
    let then = Held {
        gate,
        counters,
        streams,
        collectors,
        last: before,
    };
    let last = tell(
        stdout, then, tally, interval, places, count, packet, buffers,
    )?;
    Ok(Turn {
        held: Held {
            gate,
            counters,
            streams,
            collectors,
            last,
        },
        cursor: stream_cursor::behind(c, next),
    })
}

// One step: a packet is taken, or what is no packet is passed over, or more is read. Nothing waits to be written.
pub fn step(
    stdin: &mut impl Read,
    stdout: &mut impl Write,
    held: Held,
    keys: &mut [u64; 16384],
    changes: &mut [u64; 16384],
    buckets: &mut [u64; 16384],
    links: &mut [u64; 16384],
    words: &mut [u64; 398],
    pat_slots: &mut [u32; 288],
    pat_cells: &mut [u8; 262_144],
    pids: &mut [u64; 32768],
    buffers: &mut [u8; 1_097_728],
    places: &mut [u64; 384],
    heads: &mut [u64; 1536],
    slots: &mut [u32; 36864],
    cells: &mut [u8; 1_048_576],
    eit_heads: &mut [u64; 1536],
    eit_slots: &mut [u32; 36864],
    eit_cells: &mut [u8; 1_048_576],
    schedule_heads: &mut [u64; 1536],
    units: &mut [u32; 589_824],
    tally: &mut [u64; 10],
    interval: u64,
    out: &mut [u8; 65536],
    block: &mut [u8; 65724],
    c: Cursor,
) -> io::Result<Turn>
    requires { Inside c }
    ensures { IfOk result (λ t. Inside t.cursor) }
{
    let step = stream_cursor::look(block, c);
    let next = step.next;
    if stream_cursor::is_packet(next) {
        return take(
            stdout,
            held,
            keys,
            changes,
            buckets,
            links,
            words,
            pat_slots,
            pat_cells,
            pids,
            buffers,
            places,
            heads,
            slots,
            cells,
            eit_heads,
            eit_slots,
            eit_cells,
            schedule_heads,
            units,
            tally,
            interval,
            block,
            c,
            next,
        );
    }
    Ok(Turn {
        held,
        cursor: stream_cursor::go_on(stdin, stdout, false, out, block, c, step)?,
    })
}
