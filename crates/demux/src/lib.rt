// The transport stream: packets in, the sections that they finish through the gate (docs/RULES.md, "Packets"). What is small goes in by value and comes back in
// the answer; the rows of the gate, the watch record and the PID words and section buffers of an input are lent, and the places that tell of the sections.
#![tactic(auto)]

ghost use Rattle.std.specs.Prelude.{◌≡◌};
ghost use Rattle.pats.specs.Store.{record_of};
ghost use Rattle.gate_pats.specs.Store.{kept_of};
ghost use Rattle.demux_store.specs.Store.{store_of, fed_by, planned_in, fed, TakesOk};

use counters::Counters;
use demux_packets::Plan;
use demux_state::{Answer, Fed};
use gate_state::Gate;
use streams::Streams;

// What a packet comes to, carried out.
fn take(
    gate: Gate,
    counters: Counters,
    streams: Streams,
    keys: &mut [u64],
    changes: &mut [u64],
    words: &mut [u64],
    pat_slots: &mut [u32],
    pat_cells: &mut [u8],
    pids: &mut [u64],
    buffers: &mut [u8],
    input: u8,
    packet: &[u8],
    places: &mut [u64],
    plan: Plan,
) -> Fed
    requires { TakesOk (store_of (kept_of gate counters keys.old changes.old (record_of words.old pat_slots.old pat_cells.old)) streams pids.old buffers.old places.old) packet.now plan }
    ensures { fed_by result keys.new changes.new (record_of words.new pat_slots.new pat_cells.new) pids.new buffers.new places.new ≡ planned_in (store_of (kept_of gate counters keys.old changes.old (record_of words.old pat_slots.old pat_cells.old)) streams pids.old buffers.old places.old) input packet.now plan }
{
    match plan {
        Plan::Malformed => Fed {
            answer: Answer::Malformed,
            gate,
            counters,
            streams: demux_state::count_malformed(streams),
        },
        Plan::Nothing => Fed {
            answer: Answer::Taken(0),
            gate,
            counters,
            streams: demux_state::count(streams),
        },
        Plan::Unwatched(pid) => {
            demux_packets::forget(pids, pid);
            Fed {
                answer: Answer::Taken(0),
                gate,
                counters,
                streams: demux_state::count(streams),
            }
        }
        Plan::NoBuffer => Fed {
            answer: Answer::NoBuffer,
            gate,
            counters,
            streams: demux_state::count(streams),
        },
        Plan::Read(reading) => demux_read::read(
            gate, counters, streams, keys, changes, words, pat_slots, pat_cells, pids, buffers,
            input, packet, places, reading,
        ),
    }
}

// Feeds a packet that came on an input, with the watch record, the streams, the PID words and the buffers of that input. Every content of what is given has one
// answer: 10, 11 and 37 change nothing at all, 30 and 43 only count.
pub fn feed(
    gate: Gate,
    counters: Counters,
    streams: Streams,
    keys: &mut [u64],
    changes: &mut [u64],
    words: &mut [u64],
    pat_slots: &mut [u32],
    pat_cells: &mut [u8],
    pids: &mut [u64],
    buffers: &mut [u8],
    input: u8,
    packet: &[u8],
    places: &mut [u64],
) -> Fed
    ensures { fed_by result keys.new changes.new (record_of words.new pat_slots.new pat_cells.new) pids.new buffers.new places.new ≡ fed (store_of (kept_of gate counters keys.old changes.old (record_of words.old pat_slots.old pat_cells.old)) streams pids.old buffers.old places.old) input packet.now }
{
    match demux_judge::judge(
        gate,
        counters,
        streams,
        keys.len(),
        changes.len(),
        words,
        pat_slots,
        pat_cells,
        pids,
        buffers.len(),
        input,
        packet,
        places.len(),
    ) {
        Err(refusal) => Fed {
            answer: Answer::Refused(refusal),
            gate,
            counters,
            streams,
        },
        Ok(plan) => take(
            gate, counters, streams, keys, changes, words, pat_slots, pat_cells, pids, buffers,
            input, packet, places, plan,
        ),
    }
}
