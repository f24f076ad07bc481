// The gate with a watch record for a host that keeps one record of seven counters and lends it: they are counted up where they stand.
#![tactic(auto)]

ghost use Rattle.std.specs.Prelude.{◌≡◌};
ghost use Rattle.pats.specs.Store.{record_of};
ghost use Rattle.gate_pats.specs.Store.{kept_of, offered_with};
ghost use Rattle.gate_lent.specs.Told.{told_by};

use counters::Counters;
use gate_state::{Answer, Gate};

// What an offer answers, and the gate after it.
#[derive(Clone, Copy)]
pub struct Told {
    pub answer: Answer,
    pub gate: Gate,
}

// `gate_pats::offer` with the counters behind a reference. 10, 11, 12 and 37 leave the record as it was.
pub fn offer(
    gate: Gate,
    counters: &mut Counters,
    keys: &mut [u64],
    changes: &mut [u64],
    words: &mut [u64],
    pat_slots: &mut [u32],
    pat_cells: &mut [u8],
    input: u8,
    pid: u16,
    section: &[u8],
) -> Told
    ensures { told_by result counters.new keys.new changes.new (record_of words.new pat_slots.new pat_cells.new) ≡ offered_with (kept_of gate counters.old keys.old changes.old (record_of words.old pat_slots.old pat_cells.old)) input pid section.now }
{
    let r = gate_pats::offer(
        gate, *counters, keys, changes, words, pat_slots, pat_cells, input, pid, section,
    );
    *counters = r.counters;
    Told {
        answer: r.answer,
        gate: r.gate,
    }
}
