// The parts of the gate that know its index.
ghost use Rattle.std.specs.Prelude.{◌≡◌, length};
ghost use Rattle.section.specs.Header.{table_id_of};
ghost use Rattle.ring_index.specs.Store.{index_of};
ghost use Rattle.counters.specs.Counters.{CanCount};
ghost use Rattle.gate_indexed.specs.Store.{can_open_by, whole_by, FitsBy, indexed_of, left_by, admitted_by};

use counters::Counters;
use gate_state::{Gate, Offered, Settings};
use offers::Arrival;

// Not 10: the ring fits its slices, a bucket and a link for each row, and the watch has its words.
pub fn is_whole(
    gate: Gate,
    keys: usize,
    changes: usize,
    buckets: usize,
    links: usize,
    words: usize,
) -> bool
    ensures { result ≡ whole_by gate keys changes buckets links words }
{
    let ring = gate.ring;
    let room = ring::room(ring.capacity);
    gate::inner::is_whole(gate, keys, changes, words) & (room <= buckets) & (room <= links)
}

// Not 13: what the gate needs, and a bucket and a link for each row.
pub fn can_open(
    settings: Settings,
    keys: usize,
    changes: usize,
    buckets: usize,
    links: usize,
    words: usize,
) -> bool
    ensures { result ≡ can_open_by settings keys changes buckets links words }
{
    let room = ring::room(settings.capacity);
    gate::inner::can_open(settings, keys, changes, words) & (room <= buckets) & (room <= links)
}

// A section that arrived: it is looked up and kept, followed where it is a changed PAT, and answered.
pub fn admit(
    gate: Gate,
    counters: Counters,
    keys: &mut [u64],
    changes: &mut [u64],
    buckets: &mut [u64],
    links: &mut [u64],
    words: &mut [u64],
    arrival: Arrival,
    section: &[u8],
) -> Offered
    requires can_count { CanCount counters }
    requires fits_by { FitsBy gate (length keys.old) (length changes.old) (length buckets.old) (length links.old) (length words.old) }
    requires table_id_value { arrival.table_id ≡ table_id_of section.now }
    ensures { left_by result keys.new changes.new (index_of buckets.new links.new) words.new ≡ admitted_by (indexed_of gate counters keys.old changes.old (index_of buckets.old links.old) words.old) section.now arrival }
{
    let ring = gate.ring;
    let seen = ring_index::admit(
        ring,
        keys,
        changes,
        buckets,
        links,
        arrival.key,
        arrival.version,
        arrival.change,
    );
    gate::inner::follow(gate, seen, arrival.table_id, words, section);
    gate_state::tell(gate, counters, seen)
}
