// Many packets at once (docs/RULES.md, "Packets"): those at the front that a feed would pass over one by one are counted by one call, which looks at the gate,
// the record and the counters once. The next packet is for `demux::feed`.
#![tactic(auto)]

ghost use Rattle.std.specs.Prelude.{◌≡◌, ◌/◌, length};
ghost use Rattle.pats.specs.Store.{record_of};
ghost use Rattle.gate_pats.specs.Store.{kept_of};
ghost use Rattle.demux_store.specs.Store.{store_of};
ghost use Rattle.demux_pass.specs.Store.{passed_by, passing};

use counters::Counters;
use gate_state::Gate;
use streams::Streams;

pub mod inner;

// How many packets were passed over, and the streams then.
#[derive(Clone, Copy)]
pub struct Passed {
    pub number: usize,
    pub streams: Streams,
}

// Passes over the packets at the front of some bytes, with the memory of their input. Where a feed would refuse a packet (10, 11, 37) none is passed over.
pub fn pass(
    gate: Gate,
    counters: Counters,
    streams: Streams,
    keys: &[u64],
    changes: &[u64],
    words: &[u64],
    pat_slots: &[u32],
    pat_cells: &[u8],
    pids: &mut [u64],
    buffers: &[u8],
    input: u8,
    packets: &[u8],
    places: &[u64],
) -> Passed
    ensures { passed_by result (kept_of gate counters keys.now changes.now (record_of words.now pat_slots.now pat_cells.now)) pids.new buffers.now places.now ≡ passing (length packets.now / 188) (store_of (kept_of gate counters keys.now changes.now (record_of words.now pat_slots.now pat_cells.now)) streams pids.old buffers.now places.now) input packets.now }
{
    // What refuses a packet does not look at it.
    match demux_judge::judge(
        gate,
        counters,
        streams,
        keys.len(),
        changes.len(),
        words,
        pat_slots,
        pat_cells,
        pids,
        buffers.len(),
        input,
        &packets[0..0],
        places.len(),
    ) {
        Err(_) => Passed { number: 0, streams },
        Ok(_) => inner::pass(streams, words, pids, packets),
    }
}
