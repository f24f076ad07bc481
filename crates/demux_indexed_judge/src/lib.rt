// What a packet comes to before anything is written, where the gate's rows have an index (docs/RULES.md, "Packets").
#![tactic(auto)]

ghost use Rattle.std.specs.Prelude.{◌≡◌};
ghost use Rattle.pats.specs.Store.{record_of};
ghost use Rattle.demux_indexed_judge.specs.Verdicts.{verdict_by};

use answers::Refusal;
use counters::Counters;
use demux_packets::Plan;
use gate_state::Gate;
use streams::Streams;

// 10 also where a row has no bucket or no link; else as without an index.
pub fn judge(
    gate: Gate,
    counters: Counters,
    streams: Streams,
    keys: usize,
    changes: usize,
    buckets: usize,
    links: usize,
    words: &[u64],
    pat_slots: &[u32],
    pat_cells: &[u8],
    pids: &[u64],
    buffers: usize,
    input: u8,
    packet: &[u8],
    places: usize,
) -> Result<Plan, Refusal>
    ensures { result ≡ verdict_by gate counters streams keys changes buckets links (record_of words.now pat_slots.now pat_cells.now) pids.now buffers input packet.now places }
{
    if gate_indexed::inner::is_whole(gate, keys, changes, buckets, links, words.len()) {
        return demux_judge::judge(
            gate, counters, streams, keys, changes, words, pat_slots, pat_cells, pids, buffers,
            input, packet, places,
        );
    }
    Err(Refusal::NotWhole)
}
