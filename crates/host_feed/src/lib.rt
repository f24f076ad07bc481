// The transport stream for a host in another language, which keeps a gate and the streams of each input as plain words: what the words hold is taken apart, the one call
// is made, and what it leaves is written back. Every content of the words has one answer.
#![tactic(auto)]

ghost use Rattle.std.specs.Prelude.{◌≡◌};
ghost use Rattle.pats.specs.Store.{record_of};
ghost use Rattle.host_feed.specs.Calls.{left, packet_fed};

// Feeds a packet that came on an input, with the memory of that input: 29, 30, 43, 10, 11 or 37. `finished` is written with 29 only.
pub fn feed(
    gate: &mut [u64; 13],
    streams: &mut [u64; 3],
    keys: &mut [u64],
    changes: &mut [u64],
    watch: &mut [u64],
    pat_slots: &mut [u32],
    pat_cells: &mut [u8],
    pids: &mut [u64],
    buffers: &mut [u8],
    input: u32,
    packet: &[u8],
    places: &mut [u64],
    finished: &mut [u64; 1],
) -> u8
    ensures { left result gate.new streams.new keys.new changes.new (record_of watch.new pat_slots.new pat_cells.new) pids.new buffers.new places.new finished.new ≡ packet_fed gate.old streams.old keys.old changes.old (record_of watch.old pat_slots.old pat_cells.old) pids.old buffers.old input packet.now places.old finished.old }
{
    let held = host_gate_words::read(gate);
    let known = host_streams::streams(streams);
    let from = host_words::inputs::number(input);
    let fed = demux::feed(
        held.gate,
        held.counters,
        known,
        keys,
        changes,
        watch,
        pat_slots,
        pat_cells,
        pids,
        buffers,
        from,
        packet,
        places,
    );
    host_streams::write_fed(gate, streams, finished, fed)
}
