// The sections that a packet finished, offered one after another to the gate with an index over its rows: as without an index (crate demux_offers).
#![tactic(auto)]

ghost use Rattle.std.specs.Prelude.{◌≡◌};
ghost use Rattle.ring_index.specs.Store.{index_of};
ghost use Rattle.pats.specs.Store.{record_of};
ghost use Rattle.demux_turns.specs.Offers.{TurnOk};
ghost use Rattle.demux_indexed_turns.specs.Offers.{held_by, turned, offers_from, Turns};

use demux_turns::Held;

// The section of place k.
fn turn<'a>(
    held: Held,
    keys: &mut [u64],
    changes: &mut [u64],
    buckets: &mut [u64],
    links: &mut [u64],
    words: &mut [u64],
    pat_slots: &mut [u32],
    pat_cells: &mut [u8],
    pids: &mut [u64],
    buffers: &'a [u8],
    input: u8,
    pid: u16,
    packet: &'a [u8],
    places: &mut [u64],
    k: usize,
) -> Held
    requires { TurnOk held.gate (record_of words.old pat_slots.old pat_cells.old) pids.old places.old k }
    ensures { held_by result keys.new changes.new (index_of buckets.new links.new) (record_of words.new pat_slots.new pat_cells.new) pids.new places.new ≡ turned packet.now buffers.now input pid k (held_by held keys.old changes.old (index_of buckets.old links.old) (record_of words.old pat_slots.old pat_cells.old) pids.old places.old) }
{
    let place = demux_places::place_at(places, k);
    let offered = demux_indexed_section::offer(
        held.gate,
        held.counters,
        keys,
        changes,
        buckets,
        links,
        words,
        pat_slots,
        pat_cells,
        pids,
        input,
        pid,
        demux_places::section_at(packet, buffers, place),
    );
    let answer = offered.answer;
    demux_places::tell(places, k, answer);
    let gate = offered.gate;
    let counters = offered.counters;
    Held { gate, counters }
}

// The sections of the first `count` places, in their order.
pub fn offers<'a>(
    held: Held,
    keys: &mut [u64],
    changes: &mut [u64],
    buckets: &mut [u64],
    links: &mut [u64],
    words: &mut [u64],
    pat_slots: &mut [u32],
    pat_cells: &mut [u8],
    pids: &mut [u64],
    buffers: &'a [u8],
    input: u8,
    pid: u16,
    packet: &'a [u8],
    places: &mut [u64],
    count: usize,
) -> Held
    requires { Turns (held_by held keys.old changes.old (index_of buckets.old links.old) (record_of words.old pat_slots.old pat_cells.old) pids.old places.old) count }
    ensures { held_by result keys.new changes.new (index_of buckets.new links.new) (record_of words.new pat_slots.new pat_cells.new) pids.new places.new ≡ offers_from packet.now buffers.now input pid count 0 (held_by held keys.old changes.old (index_of buckets.old links.old) (record_of words.old pat_slots.old pat_cells.old) pids.old places.old) }
{
    let mut now = held;
    for k in 0..count {
        now = turn(
            now, keys, changes, buckets, links, words, pat_slots, pat_cells, pids, buffers, input,
            pid, packet, places, k,
        );
    }
    now
}
