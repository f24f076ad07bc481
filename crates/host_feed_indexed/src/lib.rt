// The transport stream through the gate with an index for a host in another language: `host_feed` with a bucket and a link for each row.
#![tactic(auto)]

ghost use Rattle.std.specs.Prelude.{◌≡◌};
ghost use Rattle.pats.specs.Store.{record_of};
ghost use Rattle.host_feed_indexed_calls.specs.Calls.{left, packet_fed};

// `petrizolu_feed` through the index.
pub fn feed(
    gate: &mut [u64; 13],
    streams: &mut [u64; 3],
    keys: &mut [u64],
    changes: &mut [u64],
    buckets: &mut [u64],
    links: &mut [u64],
    watch: &mut [u64],
    pat_slots: &mut [u32],
    pat_cells: &mut [u8],
    pids: &mut [u64],
    buffers: &mut [u8],
    input: u32,
    packet: &[u8],
    places: &mut [u64],
    finished: &mut [u64; 1],
) -> u8
    ensures { left result gate.new streams.new keys.new changes.new buckets.new links.new (record_of watch.new pat_slots.new pat_cells.new) pids.new buffers.new places.new finished.new ≡ packet_fed gate.old streams.old keys.old changes.old buckets.old links.old (record_of watch.old pat_slots.old pat_cells.old) pids.old buffers.old input packet.now places.old finished.old }
{
    let held = host_gate_words::read(gate);
    let known = host_streams::streams(streams);
    let from = host_words::inputs::number(input);
    let fed = demux_indexed::feed(
        held.gate,
        held.counters,
        known,
        keys,
        changes,
        buckets,
        links,
        watch,
        pat_slots,
        pat_cells,
        pids,
        buffers,
        from,
        packet,
        places,
    );
    host_streams::write_fed(gate, streams, finished, fed)
}
