// One step of reading a transport stream: the packet at the front of the block is fed to the gate with an index, or what is no packet is passed over, or more is read.
#![tactic(auto)]

ghost use Rattle.std.specs.Prelude.{◌≡◌, ◌-◌, ◌≤◌, IfOk, length};
ghost use Rattle.stream_cursor.specs.Cursor.{Inside};

use alignment::Next;
use counters::Counters;
use gate_state::Gate;
use std::io;
use std::io::{Read, Write};
use stream_cursor::Cursor;
use streams::Streams;

// The gate and the streams between two packets.
#[derive(Clone, Copy)]
pub struct Held {
    pub gate: Gate,
    pub counters: Counters,
    pub streams: Streams,
}

// What a turn leaves.
#[derive(Clone, Copy)]
pub struct Turn {
    pub held: Held,
    pub cursor: Cursor,
}

// The packet at the front of the bytes that are not used up is fed to the gate, and told.
fn feed(
    stdout: &mut impl Write,
    lines: bool,
    held: Held,
    keys: &mut [u64; 65536],
    changes: &mut [u64; 65536],
    buckets: &mut [u64; 65536],
    links: &mut [u64; 65536],
    words: &mut [u64; 398],
    pat_slots: &mut [u32; 288],
    pat_cells: &mut [u8; 262_144],
    pids: &mut [u64; 32768],
    buffers: &mut [u8; 1_097_728],
    places: &mut [u64; 384],
    out: &mut [u8; 65536],
    block: &[u8],
    c: Cursor,
    next: Next,
) -> io::Result<Turn>
    requires { (length block.now ≡ 65724) × Inside c × (188 ≤ c.to - c.from) }
    ensures { IfOk result (λ t. Inside t.cursor) }
{
    let from = c.from;
    let packet = &block[from..from + 188];
    let fed = demux_indexed::feed(
        held.gate,
        held.counters,
        held.streams,
        keys,
        changes,
        buckets,
        links,
        words,
        pat_slots,
        pat_cells,
        pids,
        buffers,
        0,
        packet,
        places,
    );
    let answer = fed.answer;
    let n = stream_cursor::tell(stdout, lines, out, c, answer, places, packet, buffers)?;
    let gate = fed.gate;
    let counters = fed.counters;
    let streams = fed.streams;
    Ok(Turn {
        held: Held {
            gate,
            counters,
            streams,
        },
        cursor: stream_cursor::filled(stream_cursor::behind(c, next), n, true),
    })
}

// One step: a packet is fed, or what is no packet is passed over, or more is read.
pub fn step(
    stdin: &mut impl Read,
    stdout: &mut impl Write,
    lines: bool,
    held: Held,
    keys: &mut [u64; 65536],
    changes: &mut [u64; 65536],
    buckets: &mut [u64; 65536],
    links: &mut [u64; 65536],
    words: &mut [u64; 398],
    pat_slots: &mut [u32; 288],
    pat_cells: &mut [u8; 262_144],
    pids: &mut [u64; 32768],
    buffers: &mut [u8; 1_097_728],
    places: &mut [u64; 384],
    out: &mut [u8; 65536],
    block: &mut [u8; 65724],
    c: Cursor,
) -> io::Result<Turn>
    requires { Inside c }
    ensures { IfOk result (λ t. Inside t.cursor) }
{
    let step = stream_cursor::look(block, c);
    let next = step.next;
    if stream_cursor::is_packet(next) {
        return feed(
            stdout, lines, held, keys, changes, buckets, links, words, pat_slots, pat_cells, pids,
            buffers, places, out, block, c, next,
        );
    }
    Ok(Turn {
        held,
        cursor: stream_cursor::go_on(stdin, stdout, lines, out, block, c, step)?,
    })
}
