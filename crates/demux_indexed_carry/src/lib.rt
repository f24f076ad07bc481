// A packet that is counted, over slices that the caller has judged, where the gate's rows have an index.
#![tactic(auto)]

ghost use Rattle.std.specs.Prelude.{◌≡◌};
ghost use Rattle.pats.specs.Store.{record_of};
ghost use Rattle.ring_index.specs.Store.{index_of};
ghost use Rattle.gate_pats_indexed.specs.Store.{kept_by};
ghost use Rattle.demux_indexed_store.specs.Carried.{store_of, fed_by, planned_in, TakesOk};

use counters::Counters;
use demux_packets::Plan;
use demux_state::{Answer, Fed};
use gate_state::Gate;
use streams::Streams;

// What a packet comes to, carried out.
pub fn take(
    gate: Gate,
    counters: Counters,
    streams: Streams,
    keys: &mut [u64],
    changes: &mut [u64],
    buckets: &mut [u64],
    links: &mut [u64],
    words: &mut [u64],
    pat_slots: &mut [u32],
    pat_cells: &mut [u8],
    pids: &mut [u64],
    buffers: &mut [u8],
    input: u8,
    packet: &[u8],
    places: &mut [u64],
    plan: Plan,
) -> Fed
    requires { TakesOk (store_of (kept_by gate counters keys.old changes.old (index_of buckets.old links.old) (record_of words.old pat_slots.old pat_cells.old)) streams pids.old buffers.old places.old) packet.now plan }
    ensures { fed_by result keys.new changes.new (index_of buckets.new links.new) (record_of words.new pat_slots.new pat_cells.new) pids.new buffers.new places.new ≡ planned_in (store_of (kept_by gate counters keys.old changes.old (index_of buckets.old links.old) (record_of words.old pat_slots.old pat_cells.old)) streams pids.old buffers.old places.old) input packet.now plan }
{
    match plan {
        Plan::Malformed => Fed {
            answer: Answer::Malformed,
            gate,
            counters,
            streams: demux_state::count_malformed(streams),
        },
        Plan::Nothing => Fed {
            answer: Answer::Taken(0),
            gate,
            counters,
            streams: demux_state::count(streams),
        },
        Plan::Unwatched(pid) => {
            demux_packets::forget(pids, pid);
            Fed {
                answer: Answer::Taken(0),
                gate,
                counters,
                streams: demux_state::count(streams),
            }
        }
        Plan::NoBuffer => Fed {
            answer: Answer::NoBuffer,
            gate,
            counters,
            streams: demux_state::count(streams),
        },
        Plan::Read(reading) => demux_indexed_read::read(
            gate, counters, streams, keys, changes, buckets, links, words, pat_slots, pat_cells,
            pids, buffers, input, packet, places, reading,
        ),
    }
}
