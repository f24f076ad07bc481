// What a packet comes to before anything is written (docs/RULES.md, "Packets"): 10, 11, 37, then what its bytes, the watched PIDs and the words of the PIDs say.
#![tactic(auto)]

ghost use Rattle.std.specs.Prelude.{◌≡◌, length, max};
ghost use Rattle.pats.specs.Store.{record_of};
ghost use Rattle.demux_judge.specs.Verdicts.{record_whole, pat_count, lent_whole, whole_with, verdict_of, HasCount};

use answers::Refusal;
use counters::Counters;
use demux_packets::Plan;
use gate_state::{Follow, Gate};
use streams::Streams;

// How many words the places have: 64 places of 6.
pub const PLACES_WORDS: usize = 384;

// Where the PAT store counts the sets that left it.
const PAT_EVICTIONS: usize = 385;

// One more than the last input.
const INPUTS: u8 = 16;

// ---- 10

// The watch record: the PAT store is looked at only where complete PATs are followed.
fn is_record_whole(follow: Follow, words: &[u64], pat_slots: &[u32], pat_cells: &[u8]) -> bool
    ensures { result ≡ record_whole follow (record_of words.now pat_slots.now pat_cells.now) }
{
    if follow.by_tables() {
        return pats::is_whole(words, pat_slots, pat_cells);
    }
    true
}

// What is lent for the streams and the places.
fn is_lent_whole(streams: Streams, pids: usize, buffers: usize, places: usize) -> bool
    ensures { result ≡ lent_whole streams pids buffers places }
{
    streams::inner::are_enough(streams.count, pids, buffers) & (PLACES_WORDS <= places)
}

fn is_whole(
    gate: Gate,
    streams: Streams,
    keys: usize,
    changes: usize,
    words: &[u64],
    pat_slots: &[u32],
    pat_cells: &[u8],
    pids: usize,
    buffers: usize,
    places: usize,
) -> bool
    ensures { result ≡ whole_with gate streams keys changes (record_of words.now pat_slots.now pat_cells.now) pids buffers places }
{
    let follow = gate.follow;
    gate::inner::is_whole(gate, keys, changes, words.len())
        & is_record_whole(follow, words, pat_slots, pat_cells)
        & is_lent_whole(streams, pids, buffers, places)
}

// ---- 11

fn larger(a: u64, b: u64) -> u64
    ensures { result ≡ max a b }
{
    if a < b { b } else { a }
}

// The larger of the PAT store's evictions and its clock, 0 where complete PATs are not followed.
fn pat_count(follow: Follow, words: &[u64]) -> u64
    requires { HasCount follow words.now }
    ensures { result ≡ pat_count follow words.now }
{
    if follow.by_tables() {
        return larger(words[PAT_EVICTIONS], pats::clock_of(words));
    }
    0
}

// ---- a packet

// What a packet that is counted comes to; a refusal changes nothing.
pub fn judge(
    gate: Gate,
    counters: Counters,
    streams: Streams,
    keys: usize,
    changes: usize,
    words: &[u64],
    pat_slots: &[u32],
    pat_cells: &[u8],
    pids: &[u64],
    buffers: usize,
    input: u8,
    packet: &[u8],
    places: usize,
) -> Result<Plan, Refusal>
    ensures { result ≡ verdict_of gate counters streams keys changes (record_of words.now pat_slots.now pat_cells.now) pids.now buffers input packet.now places }
{
    if !is_whole(
        gate,
        streams,
        keys,
        changes,
        words,
        pat_slots,
        pat_cells,
        pids.len(),
        buffers,
        places,
    ) {
        return Err(Refusal::NotWhole);
    }
    let follow = gate.follow;
    if demux_state::near_end(counters, streams, pat_count(follow, words)) {
        return Err(Refusal::CounterFull);
    }
    if input < INPUTS {
        return Ok(demux_packets::judge(packet, words, pids, streams.count));
    }
    Err(Refusal::BadInput)
}
