// The transport stream through the gate with an index over its rows (docs/RULES.md, "Packets"): as without an index (crate demux), and a section's key is
// looked up, held and given up in a time that does not grow with the capacity.
#![tactic(auto)]

ghost use Rattle.std.specs.Prelude.{◌≡◌};
ghost use Rattle.pats.specs.Store.{record_of};
ghost use Rattle.ring_index.specs.Store.{index_of};
ghost use Rattle.gate_pats_indexed.specs.Store.{kept_by};
ghost use Rattle.demux_indexed_store.specs.Carried.{store_of, fed_by};
ghost use Rattle.demux_indexed_store.specs.Store.{fed};

use counters::Counters;
use demux_state::{Answer, Fed};
use gate_state::Gate;
use streams::Streams;

// Feeds a packet that came on an input, with the watch record, the streams, the PID words and the buffers of that input. Every content of what is given has one
// answer: 10, 11 and 37 change nothing at all, 30 and 43 only count.
pub fn feed(
    gate: Gate,
    counters: Counters,
    streams: Streams,
    keys: &mut [u64],
    changes: &mut [u64],
    buckets: &mut [u64],
    links: &mut [u64],
    words: &mut [u64],
    pat_slots: &mut [u32],
    pat_cells: &mut [u8],
    pids: &mut [u64],
    buffers: &mut [u8],
    input: u8,
    packet: &[u8],
    places: &mut [u64],
) -> Fed
    ensures { fed_by result keys.new changes.new (index_of buckets.new links.new) (record_of words.new pat_slots.new pat_cells.new) pids.new buffers.new places.new ≡ fed (store_of (kept_by gate counters keys.old changes.old (index_of buckets.old links.old) (record_of words.old pat_slots.old pat_cells.old)) streams pids.old buffers.old places.old) input packet.now }
{
    match demux_indexed_judge::judge(
        gate,
        counters,
        streams,
        keys.len(),
        changes.len(),
        buckets.len(),
        links.len(),
        words,
        pat_slots,
        pat_cells,
        pids,
        buffers.len(),
        input,
        packet,
        places.len(),
    ) {
        Err(refusal) => Fed {
            answer: Answer::Refused(refusal),
            gate,
            counters,
            streams,
        },
        Ok(plan) => demux_indexed_carry::take(
            gate, counters, streams, keys, changes, buckets, links, words, pat_slots, pat_cells,
            pids, buffers, input, packet, places, plan,
        ),
    }
}
