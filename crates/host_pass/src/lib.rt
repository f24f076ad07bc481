// Packets that are passed over, for a host in another language (`host_feed`): one call for those at the front of some bytes that need no feed.
#![tactic(auto)]

ghost use Rattle.std.specs.Prelude.{◌≡◌};
ghost use Rattle.pats.specs.Store.{record_of};
ghost use Rattle.host_streams.specs.Words.{words_after};
ghost use Rattle.host_pass.specs.Calls.{left, packets_passed};

use streams::Streams;

// The counts: a packet never changes how many buffers are lent.
pub fn write_counts(words: &mut [u64; 3], streams: Streams)
    ensures { words.new ≡ words_after words.old streams }
{
    *words = [words[0], streams.packets, streams.malformed];
}

// How many packets at the front are passed over: none where a feed would be refused.
pub fn pass(
    gate: &[u64; 13],
    streams: &mut [u64; 3],
    keys: &[u64],
    changes: &[u64],
    watch: &[u64],
    pat_slots: &[u32],
    pat_cells: &[u8],
    pids: &mut [u64],
    buffers: &[u8],
    input: u32,
    packets: &[u8],
    places: &[u64],
) -> u64
    ensures { left result streams.new pids.new ≡ packets_passed gate.now streams.old keys.now changes.now (record_of watch.now pat_slots.now pat_cells.now) pids.old buffers.now input packets.now places.now }
{
    let held = host_gate_words::read(gate);
    let known = host_streams::streams(streams);
    let from = host_words::inputs::number(input);
    let passed = demux_pass::pass(
        held.gate,
        held.counters,
        known,
        keys,
        changes,
        watch,
        pat_slots,
        pat_cells,
        pids,
        buffers,
        from,
        packets,
        places,
    );
    write_counts(streams, passed.streams);
    passed.number as u64
}
