// The gate with a watch record of its input (docs/RULES.md, "Gate" and "Watched PIDs"): which sections are new and which repeat what was seen, counted;
// and which PIDs to look at, by each changed PAT section or by complete PATs. What is small goes in by value and comes back in the answer; the rows of
// the ring and the three slices of the record are lent.
#![tactic(auto)]

ghost use Rattle.std.specs.Prelude.{◌≡◌, length};
ghost use Rattle.watched.specs.Store.{opening_by};
ghost use Rattle.gate.specs.Store.{begun_by};
ghost use Rattle.pats.specs.Store.{record_of};
ghost use Rattle.gate_pats.specs.Store.{opened_with, record_opened, kept_of, left_with, offered_with};

use answers::{Outcome, Refusal};
use counters::Counters;
use gate_state::{Gate, Offered, Opened, Settings};
use inner::State;

pub mod inner;

// Opens a gate with no rows and fresh counters, and the record of one input: 12 where an extra PID is 8192 or more, 13 where less is lent than the
// settings need or there is no such change rule, else 7. A refusal writes nothing. The rows, the slots and the cells are not written.
pub fn open(
    settings: Settings,
    extra: &[u16],
    keys: &[u64],
    changes: &[u64],
    words: &mut [u64],
    pat_slots: &[u32],
    pat_cells: &[u8],
) -> Opened
    ensures { begun_by result words.new ≡ opened_with settings extra.now (length keys.now) (length changes.now) (length pat_slots.now) (length pat_cells.now) words.old }
{
    let follow = settings.follow;
    if inner::has_room(follow, words.len(), pat_slots.len(), pat_cells.len()) {
        let opened = gate::open(settings, extra, keys, changes, words);
        let answer = opened.answer;
        inner::begin(follow, answer, words);
        return opened;
    }
    gate_state::begin(inner::refusal(extra), settings)
}

// Opens the record of a further input alone: 12, 13 where it is too short for the manner of following, else 7. A refusal writes nothing.
pub fn open_record(
    settings: Settings,
    extra: &[u16],
    words: &mut [u64],
    pat_slots: &[u32],
    pat_cells: &[u8],
) -> Outcome
    ensures { opening_by result words.new ≡ record_opened settings extra.now (length pat_slots.now) (length pat_cells.now) words.old }
{
    let follow = settings.follow;
    if inner::has_room(follow, words.len(), pat_slots.len(), pat_cells.len()) {
        let answer = watched::open(words, settings.well_known, extra);
        inner::begin(follow, answer, words);
        return answer;
    }
    inner::refusal(extra)
}

// Offers a section that came on an input and a PID, watched or not, with the record of that input. Every content of what is given has one answer: 10,
// 11, 12 and 37 change nothing at all.
pub fn offer(
    gate: Gate,
    counters: Counters,
    keys: &mut [u64],
    changes: &mut [u64],
    words: &mut [u64],
    pat_slots: &mut [u32],
    pat_cells: &mut [u8],
    input: u8,
    pid: u16,
    section: &[u8],
) -> Offered
    ensures { left_with result keys.new changes.new (record_of words.new pat_slots.new pat_cells.new) ≡ offered_with (kept_of gate counters keys.old changes.old (record_of words.old pat_slots.old pat_cells.old)) input pid section.now }
{
    let follow = gate.follow;
    match inner::state_of(follow, words, pat_slots, pat_cells) {
        State::NotWhole => gate_state::refuse(Refusal::NotWhole, gate, counters),
        State::Full => {
            let whole = gate::inner::is_whole(gate, keys.len(), changes.len(), words.len());
            gate_state::refuse(inner::full(whole), gate, counters)
        }
        State::Ready => inner::take(
            gate, counters, keys, changes, words, pat_slots, pat_cells, input, pid, section,
        ),
    }
}
