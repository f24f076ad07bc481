// What `watch_ts` and `sections` do: they read a transport stream from standard input, of any length, in blocks, feed each packet to the gate with an index, and
// write a line for each section that a packet finished, or its record. Default settings, 256 section buffers, all on input 0. What a block gave is written out
// before the next is read.
#![tactic(auto)]

use gate_state::Settings;
use std::io;
use std::io::{Read, Write};
use stream_cursor::Cursor;
use stream_step::Held;
use streams::Streams;

// A proved loop has to end, and nothing says that standard input does: the turns are counted, up to a number that no run uses up.
fn all(
    stdin: &mut impl Read,
    stdout: &mut impl Write,
    lines: bool,
    keys: &mut [u64; 65536],
    changes: &mut [u64; 65536],
    buckets: &mut [u64; 65536],
    links: &mut [u64; 65536],
    words: &mut [u64; 398],
    pat_slots: &mut [u32; 288],
    pat_cells: &mut [u8; 262_144],
    pids: &mut [u64; 32768],
    buffers: &mut [u8; 1_097_728],
    places: &mut [u64; 384],
    out: &mut [u8; 65536],
    block: &mut [u8; 65724],
) -> io::Result<()> {
    let none = [0u16; 1];
    let opened = gate_pats_indexed::open(
        Settings::by_default(),
        &none[0..0],
        keys,
        changes,
        buckets,
        links,
        words,
        pat_slots,
        pat_cells,
    );
    let started = streams::open(Streams::DEFAULT_BUFFERS, pids, buffers);
    let gate = opened.gate;
    let counters = opened.counters;
    let streams = started.streams;
    let mut held = Held {
        gate,
        counters,
        streams,
    };
    let mut c = Cursor {
        from: 0,
        to: 0,
        last: false,
        at: 0,
        passing: false,
        skipped: 0,
        filled: 0,
        more: true,
    };
    for _ in 0..u64::MAX {
        let t = stream_step::step(
            stdin, stdout, lines, held, keys, changes, buckets, links, words, pat_slots, pat_cells,
            pids, buffers, places, out, block, c,
        )?;
        held = t.held;
        c = t.cursor;
        if !c.more {
            break;
        }
    }
    stream_cursor::finish(stdout, lines, out, c.filled, held.streams, held.counters)
}

// All packets of standard input: a line for each section that they finish, and the totals last; or the records of these sections alone.
pub fn run(stdin: &mut impl Read, stdout: &mut impl Write, lines: bool) -> io::Result<()> {
    let mut keys = [0u64; 65536];
    let mut changes = [0u64; 65536];
    let mut buckets = [0u64; 65536];
    let mut links = [0u64; 65536];
    let mut words = [0u64; 398];
    let mut pat_slots = [0u32; 288];
    let mut pat_cells = [0u8; 262_144];
    let mut pids = [0u64; 32768];
    let mut buffers = [0u8; 1_097_728];
    let mut places = [0u64; 384];
    let mut out = [0u8; 65536];
    let mut block = [0u8; 65724];
    all(
        stdin,
        stdout,
        lines,
        &mut keys,
        &mut changes,
        &mut buckets,
        &mut links,
        &mut words,
        &mut pat_slots,
        &mut pat_cells,
        &mut pids,
        &mut buffers,
        &mut places,
        &mut out,
        &mut block,
    )
}
