// `host_pass` through the gate with an index.
#![tactic(auto)]

ghost use Rattle.std.specs.Prelude.{◌≡◌};
ghost use Rattle.pats.specs.Store.{record_of};
ghost use Rattle.host_pass.specs.Calls.{left};
ghost use Rattle.host_pass_indexed.specs.Calls.{packets_passed};

// How many packets at the front are passed over: none where a feed would be refused.
pub fn pass(
    gate: &[u64; 13],
    streams: &mut [u64; 3],
    keys: &[u64],
    changes: &[u64],
    buckets: &[u64],
    links: &[u64],
    watch: &[u64],
    pat_slots: &[u32],
    pat_cells: &[u8],
    pids: &mut [u64],
    buffers: &[u8],
    input: u32,
    packets: &[u8],
    places: &[u64],
) -> u64
    ensures { left result streams.new pids.new ≡ packets_passed gate.now streams.old keys.now changes.now buckets.now links.now (record_of watch.now pat_slots.now pat_cells.now) pids.old buffers.now input packets.now places.now }
{
    let held = host_gate_words::read(gate);
    let known = host_streams::streams(streams);
    let from = host_words::inputs::number(input);
    let passed = demux_indexed_pass::pass(
        held.gate,
        held.counters,
        known,
        keys,
        changes,
        buckets,
        links,
        watch,
        pat_slots,
        pat_cells,
        pids,
        buffers,
        from,
        packets,
        places,
    );
    host_pass::write_counts(streams, passed.streams);
    passed.number as u64
}
