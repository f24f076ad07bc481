// The gate with an index over its rows and a watch record of its input: as the gate with a record (crate gate_pats), and a key is looked up, held and
// given up in a time that does not grow with the capacity.
#![tactic(auto)]

ghost use Rattle.std.specs.Prelude.{◌≡◌, length};
ghost use Rattle.pats.specs.Store.{record_of};
ghost use Rattle.ring_index.specs.Store.{index_of};
ghost use Rattle.gate_indexed.specs.Store.{begun_by};
ghost use Rattle.gate_pats_indexed.specs.Store.{opened_with, kept_by, left_with, offered_with};

use answers::Refusal;
use counters::Counters;
use gate_pats::inner::State;
use gate_state::{Gate, Offered, Opened, Settings};

pub mod inner;

// Opens a gate with no rows and fresh counters, its index, and the record of one input: 12 where an extra PID is 8192 or more, 13 where less is lent
// than the settings need or there is no such change rule, else 7. A refusal writes nothing. The rows, the links, the slots and the cells are not written.
pub fn open(
    settings: Settings,
    extra: &[u16],
    keys: &[u64],
    changes: &[u64],
    buckets: &mut [u64],
    links: &[u64],
    words: &mut [u64],
    pat_slots: &[u32],
    pat_cells: &[u8],
) -> Opened
    ensures { begun_by result buckets.new words.new ≡ opened_with settings extra.now (length keys.now) (length changes.now) (length links.now) (length pat_slots.now) (length pat_cells.now) buckets.old words.old }
{
    let follow = settings.follow;
    if gate_pats::inner::has_room(follow, words.len(), pat_slots.len(), pat_cells.len()) {
        let opened = gate_indexed::open(settings, extra, keys, changes, buckets, links, words);
        let answer = opened.answer;
        gate_pats::inner::begin(follow, answer, words);
        return opened;
    }
    gate_state::begin(gate_pats::inner::refusal(extra), settings)
}

// Offers a section that came on an input and a PID, watched or not, with the record of that input. Every content of what is given has one answer: 10,
// 11, 12 and 37 change nothing at all.
pub fn offer(
    gate: Gate,
    counters: Counters,
    keys: &mut [u64],
    changes: &mut [u64],
    buckets: &mut [u64],
    links: &mut [u64],
    words: &mut [u64],
    pat_slots: &mut [u32],
    pat_cells: &mut [u8],
    input: u8,
    pid: u16,
    section: &[u8],
) -> Offered
    ensures { left_with result keys.new changes.new (index_of buckets.new links.new) (record_of words.new pat_slots.new pat_cells.new) ≡ offered_with (kept_by gate counters keys.old changes.old (index_of buckets.old links.old) (record_of words.old pat_slots.old pat_cells.old)) input pid section.now }
{
    let follow = gate.follow;
    match gate_pats::inner::state_of(follow, words, pat_slots, pat_cells) {
        State::NotWhole => gate_state::refuse(Refusal::NotWhole, gate, counters),
        State::Full => {
            let whole = gate_indexed::inner::is_whole(
                gate,
                keys.len(),
                changes.len(),
                buckets.len(),
                links.len(),
                words.len(),
            );
            gate_state::refuse(gate_pats::inner::full(whole), gate, counters)
        }
        State::Ready => inner::take(
            gate, counters, keys, changes, buckets, links, words, pat_slots, pat_cells, input, pid,
            section,
        ),
    }
}
