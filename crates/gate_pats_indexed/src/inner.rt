// An offer behind 10 and 11 of the record, where the gate's rows have an index.
ghost use Rattle.std.specs.Prelude.{◌≡◌};
ghost use Rattle.pats.specs.Store.{record_of};
ghost use Rattle.ring_index.specs.Store.{index_of};
ghost use Rattle.gate_pats.specs.Store.{RecordReady};
ghost use Rattle.gate_pats_indexed.specs.Store.{kept_by, left_with, taken_by};

use counters::Counters;
use gate_state::{Gate, Offered};

// An offer to a gate whose record is ready: the gate answers first, the PAT store last.
pub fn take(
    gate: Gate,
    counters: Counters,
    keys: &mut [u64],
    changes: &mut [u64],
    buckets: &mut [u64],
    links: &mut [u64],
    words: &mut [u64],
    pat_slots: &mut [u32],
    pat_cells: &mut [u8],
    input: u8,
    pid: u16,
    section: &[u8],
) -> Offered
    requires { RecordReady gate.follow (record_of words.old pat_slots.old pat_cells.old) }
    ensures { left_with result keys.new changes.new (index_of buckets.new links.new) (record_of words.new pat_slots.new pat_cells.new) ≡ taken_by (kept_by gate counters keys.old changes.old (index_of buckets.old links.old) (record_of words.old pat_slots.old pat_cells.old)) input pid section.now }
{
    let follow = gate.follow;
    let offered = gate_indexed::offer(
        gate, counters, keys, changes, buckets, links, words, input, pid, section,
    );
    let answer = offered.answer;
    gate_pats::inner::enter(
        follow, answer, words, pat_slots, pat_cells, input, pid, section,
    );
    offered
}
