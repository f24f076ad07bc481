// `counts CAPACITY LIMIT CELLS [INTERVAL] < stream.ts`: what a monitor with such a store counts of a transport stream, a line for each time that the stream tells.
// CAPACITY keys of the gate; LIMIT keys and CELLS cells of 4,096 bytes for each collector; lines at least INTERVAL seconds of the stream apart. 256 section buffers,
// the other settings as they are by default, all on input 0.
#![tactic(auto)]

ghost use Rattle.stream_cursor.specs.Cursor.{Inside};

use counts_collect::Collectors;
use counts_step::Held;
use counts_words::Words;
use eit_state::Eit;
use gate_state::{Opened, Settings};
use std::io;
use std::io::{Read, Write};
use store::Sets;
use stream_cursor::Cursor;
use streams::Streams;

const CELL_BYTES: usize = 4096;

fn settings(capacity: u64) -> Settings {
    Settings {
        capacity,
        repeats: Settings::REPEATS,
        follow: Settings::FOLLOW,
        well_known: Settings::WELL_KNOWN,
        change_rule: Settings::CHANGE_RULE,
    }
}

fn at_start() -> Cursor
    ensures { Inside result }
{
    Cursor {
        from: 0,
        to: 0,
        last: false,
        at: 0,
        passing: false,
        skipped: 0,
        filled: 0,
        more: true,
    }
}

fn held(opened: Opened, streams: Streams, sets: Sets, eit: Eit) -> Held {
    let gate = opened.gate;
    let counters = opened.counters;
    let collectors = Collectors { sets, eit };
    Held {
        gate,
        counters,
        streams,
        collectors,
        last: counts_times::none(),
    }
}

// The totals.
fn finish(stdout: &mut impl Write, held: Held, tally: &[u64; 10]) -> io::Result<()> {
    let c = held.collectors;
    let numbers = counts_lines::numbers(held.streams, held.counters, tally, c.sets, c.eit);
    counts_tell::say_end(stdout, &numbers)
}

// All packets of standard input. A proved loop has to end, and nothing says that standard input does: the turns are counted, up to a number that no run uses up.
fn run(
    stdin: &mut impl Read,
    stdout: &mut impl Write,
    begun: Held,
    interval: u64,
    keys: &mut [u64; 16384],
    changes: &mut [u64; 16384],
    buckets: &mut [u64; 16384],
    links: &mut [u64; 16384],
    words: &mut [u64; 398],
    pat_slots: &mut [u32; 288],
    pat_cells: &mut [u8; 262_144],
    pids: &mut [u64; 32768],
    buffers: &mut [u8; 1_097_728],
    places: &mut [u64; 384],
    heads: &mut [u64; 1536],
    slots: &mut [u32; 36864],
    cells: &mut [u8; 1_048_576],
    eit_heads: &mut [u64; 1536],
    eit_slots: &mut [u32; 36864],
    eit_cells: &mut [u8; 1_048_576],
    schedule_heads: &mut [u64; 1536],
    units: &mut [u32; 589_824],
    tally: &mut [u64; 10],
    out: &mut [u8; 65536],
    block: &mut [u8; 65724],
) -> io::Result<()> {
    let mut held = begun;
    let mut c = at_start();
    for _ in 0..u64::MAX {
        let t = counts_step::step(
            stdin,
            stdout,
            held,
            keys,
            changes,
            buckets,
            links,
            words,
            pat_slots,
            pat_cells,
            pids,
            buffers,
            places,
            heads,
            slots,
            cells,
            eit_heads,
            eit_slots,
            eit_cells,
            schedule_heads,
            units,
            tally,
            interval,
            out,
            block,
            c,
        )?;
        held = t.held;
        c = t.cursor;
        if !c.more {
            break;
        }
    }
    finish(stdout, held, tally)
}

// Gate, streams and collectors are opened: the words are in their bounds, so none refuses.
fn open(
    stdin: &mut impl Read,
    stdout: &mut impl Write,
    words: Words,
    keys: &mut [u64; 16384],
    changes: &mut [u64; 16384],
    buckets: &mut [u64; 16384],
    links: &mut [u64; 16384],
    watch: &mut [u64; 398],
    pat_slots: &mut [u32; 288],
    pat_cells: &mut [u8; 262_144],
    pids: &mut [u64; 32768],
    buffers: &mut [u8; 1_097_728],
    places: &mut [u64; 384],
    heads: &mut [u64; 1536],
    slots: &mut [u32; 36864],
    cells: &mut [u8; 1_048_576],
    eit_heads: &mut [u64; 1536],
    eit_slots: &mut [u32; 36864],
    eit_cells: &mut [u8; 1_048_576],
    schedule_heads: &mut [u64; 1536],
    units: &mut [u32; 589_824],
    tally: &mut [u64; 10],
    out: &mut [u8; 65536],
    block: &mut [u8; 65724],
) -> io::Result<()> {
    let none = [0u16; 1];
    let limit = words.limit as usize;
    let count = words.cells as usize;
    let opened = gate_pats_indexed::open(
        settings(words.capacity),
        &none[0..0],
        keys,
        changes,
        buckets,
        links,
        watch,
        pat_slots,
        pat_cells,
    );
    let started = streams::open(Streams::DEFAULT_BUFFERS, pids, buffers);
    let sets = sets::open(limit, CELL_BYTES, count, heads, slots, cells);
    let eit = eit::open(
        limit,
        CELL_BYTES,
        count,
        eit_heads,
        eit_slots,
        eit_cells,
        schedule_heads,
        units,
    );
    counts_tell::say_names(stdout)?;
    run(
        stdin,
        stdout,
        held(opened, started.streams, sets.sets, eit.eit),
        words.interval,
        keys,
        changes,
        buckets,
        links,
        watch,
        pat_slots,
        pat_cells,
        pids,
        buffers,
        places,
        heads,
        slots,
        cells,
        eit_heads,
        eit_slots,
        eit_cells,
        schedule_heads,
        units,
        tally,
        out,
        block,
    )
}

// What is lent.
fn lend(stdin: &mut impl Read, stdout: &mut impl Write, words: Words) -> io::Result<()> {
    let mut keys = [0u64; 16384];
    let mut changes = [0u64; 16384];
    let mut buckets = [0u64; 16384];
    let mut links = [0u64; 16384];
    let mut watch = [0u64; 398];
    let mut pat_slots = [0u32; 288];
    let mut pat_cells = [0u8; 262_144];
    let mut pids = [0u64; 32768];
    let mut buffers = [0u8; 1_097_728];
    let mut places = [0u64; 384];
    let mut heads = [0u64; 1536];
    let mut slots = [0u32; 36864];
    let mut cells = [0u8; 1_048_576];
    let mut eit_heads = [0u64; 1536];
    let mut eit_slots = [0u32; 36864];
    let mut eit_cells = [0u8; 1_048_576];
    let mut schedule_heads = [0u64; 1536];
    let mut units = [0u32; 589_824];
    let mut tally = [0u64; 10];
    let mut out = [0u8; 65536];
    let mut block = [0u8; 65724];
    open(
        stdin,
        stdout,
        words,
        &mut keys,
        &mut changes,
        &mut buckets,
        &mut links,
        &mut watch,
        &mut pat_slots,
        &mut pat_cells,
        &mut pids,
        &mut buffers,
        &mut places,
        &mut heads,
        &mut slots,
        &mut cells,
        &mut eit_heads,
        &mut eit_slots,
        &mut eit_cells,
        &mut schedule_heads,
        &mut units,
        &mut tally,
        &mut out,
        &mut block,
    )
}

fn main(rt: HostRuntime) -> io::Result<()> {
    match counts_words::read(&rt) {
        Some(words) => lend(&mut rt.stdin(), &mut rt.stdout(), words),
        None => counts_tell::say_usage(&mut rt.stdout()),
    }
}
