// A payload over slices that the caller has judged, where the gate's rows have an index: as without an index (crate demux_read).
#![tactic(auto)]

ghost use Rattle.std.specs.Prelude.{◌≡◌};
ghost use Rattle.pats.specs.Store.{record_of};
ghost use Rattle.ring_index.specs.Store.{index_of};
ghost use Rattle.gate_pats_indexed.specs.Store.{kept_by};
ghost use Rattle.demux_indexed_store.specs.Carried.{store_of, fed_by, read_in, ReadsOk};

use counters::Counters;
use demux_packets::Reading;
use demux_state::{Answer, Fed};
use demux_turns::Held;
use gate_state::Gate;
use streams::Streams;

// The payload is read whole, then each section that it finished is offered.
pub fn read(
    gate: Gate,
    counters: Counters,
    streams: Streams,
    keys: &mut [u64],
    changes: &mut [u64],
    buckets: &mut [u64],
    links: &mut [u64],
    words: &mut [u64],
    pat_slots: &mut [u32],
    pat_cells: &mut [u8],
    pids: &mut [u64],
    buffers: &mut [u8],
    input: u8,
    packet: &[u8],
    places: &mut [u64],
    reading: Reading,
) -> Fed
    requires { ReadsOk (store_of (kept_by gate counters keys.old changes.old (index_of buckets.old links.old) (record_of words.old pat_slots.old pat_cells.old)) streams pids.old buffers.old places.old) packet.now reading }
    ensures { fed_by result keys.new changes.new (index_of buckets.new links.new) (record_of words.new pat_slots.new pat_cells.new) pids.new buffers.new places.new ≡ read_in (store_of (kept_by gate counters keys.old changes.old (index_of buckets.old links.old) (record_of words.old pat_slots.old pat_cells.old)) streams pids.old buffers.old places.old) input packet.now reading }
{
    let load = reading.load;
    let pid = load.pid;
    let count = demux_packets::read(pids, buffers, places, reading, packet);
    let held = demux_indexed_offers::offers(
        Held { gate, counters },
        keys,
        changes,
        buckets,
        links,
        words,
        pat_slots,
        pat_cells,
        pids,
        buffers,
        input,
        pid.0,
        packet,
        places,
        count,
    );
    let gate_then = held.gate;
    let counters_then = held.counters;
    Fed {
        answer: Answer::Taken(count),
        gate: gate_then,
        counters: counters_then,
        streams: demux_state::count(streams),
    }
}
