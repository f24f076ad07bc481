// Many packets at once through the gate with an index over its rows (docs/RULES.md, "Packets"): as without an index (crate demux_pass).
#![tactic(auto)]

ghost use Rattle.std.specs.Prelude.{◌≡◌, ◌/◌, length};
ghost use Rattle.pats.specs.Store.{record_of};
ghost use Rattle.ring_index.specs.Store.{index_of};
ghost use Rattle.gate_pats_indexed.specs.Store.{kept_by};
ghost use Rattle.demux_indexed_store.specs.Carried.{store_of};
ghost use Rattle.demux_indexed_pass.specs.Store.{passed_by, passing};

use counters::Counters;
use demux_pass::Passed;
use gate_state::Gate;
use streams::Streams;

// Passes over the packets at the front of some bytes, with the memory of their input. Where a feed would refuse a packet (10, 11, 37) none is passed over.
pub fn pass(
    gate: Gate,
    counters: Counters,
    streams: Streams,
    keys: &[u64],
    changes: &[u64],
    buckets: &[u64],
    links: &[u64],
    words: &[u64],
    pat_slots: &[u32],
    pat_cells: &[u8],
    pids: &mut [u64],
    buffers: &[u8],
    input: u8,
    packets: &[u8],
    places: &[u64],
) -> Passed
    ensures { passed_by result (kept_by gate counters keys.now changes.now (index_of buckets.now links.now) (record_of words.now pat_slots.now pat_cells.now)) pids.new buffers.now places.now ≡ passing (length packets.now / 188) (store_of (kept_by gate counters keys.now changes.now (index_of buckets.now links.now) (record_of words.now pat_slots.now pat_cells.now)) streams pids.old buffers.now places.now) input packets.now }
{
    // What refuses a packet does not look at it.
    match demux_indexed_judge::judge(
        gate,
        counters,
        streams,
        keys.len(),
        changes.len(),
        buckets.len(),
        links.len(),
        words,
        pat_slots,
        pat_cells,
        pids,
        buffers.len(),
        input,
        &packets[0..0],
        places.len(),
    ) {
        Err(_) => Passed { number: 0, streams },
        Ok(_) => demux_pass::inner::pass(streams, words, pids, packets),
    }
}
