// What both forms of the gate do with a watch record: whether it is whole, its opening, and the PAT store behind an offer.
ghost use Rattle.std.specs.Prelude.{◌≡◌, length};
ghost use Rattle.answers.specs.Answers.{refusal_no, outcome_no};
ghost use Rattle.gate_state.specs.State.{said_of};
ghost use Rattle.pats.specs.Store.{record_of};
ghost use Rattle.gate_pats.specs.Store.{room_with, state_of, StateOk, RecordReady, BeginOk, words_with, refused_with, full_no, record_after, kept_of, left_with, taken_with};

use answers::{Outcome, Refusal};
use counters::Counters;
use gate_state::{Answer, Follow, Gate, Offered};

// Whether a call can use the record: a PAT store that is not whole, or one that cannot count, is told only where complete PATs are followed.
#[derive(Clone, Copy)]
pub enum State {
    NotWhole,
    Full,
    Ready,
}

// Whether slices of these lengths are enough for the record.
pub fn has_room(follow: Follow, words: usize, slots: usize, cells: usize) -> bool
    ensures { result ≡ room_with follow words slots cells }
{
    if follow.by_tables() {
        return pats::has_room(words, slots, cells);
    }
    true
}

// The refusal of an opening that has too little room: an extra PID that is none comes first.
pub fn refusal(extra: &[u16]) -> Outcome
    ensures { outcome_no result ≡ refused_with extra.now }
{
    if watched::inner::pids_good(extra) {
        return Err(Refusal::TooLittle);
    }
    Err(Refusal::BadPid)
}

// The PAT store of a record that was opened: no row, no eviction. A refused opening writes nothing.
pub fn begin(follow: Follow, answer: Outcome, words: &mut [u64])
    requires { BeginOk follow (length words.old) }
    ensures { words.new ≡ words_with follow (outcome_no answer) words.old }
{
    if follow.by_tables() & answer.is_ok() {
        pats::begin(words);
    }
}

// 10 and 11 of the record.
pub fn state_of(follow: Follow, words: &[u64], slots: &[u32], cells: &[u8]) -> State
    ensures value { result ≡ state_of follow (record_of words.now slots.now cells.now) }
    ensures state_ok { StateOk follow (record_of words.now slots.now cells.now) result }
{
    if follow.by_tables() {
        if pats::is_whole(words, slots, cells) {
            if pats::is_full(words) {
                return State::Full;
            }
            return State::Ready;
        }
        return State::NotWhole;
    }
    State::Ready
}

// The refusal where the PAT store cannot count: a gate that is not whole comes first.
pub fn full(whole: bool) -> Refusal
    ensures { refusal_no result ≡ full_no whole }
{
    if whole {
        return Refusal::CounterFull;
    }
    Refusal::NotWhole
}

// The PAT store behind an offer: where complete PATs are followed, a sound section of PID 0 enters it.
pub fn enter(
    follow: Follow,
    answer: Answer,
    words: &mut [u64],
    slots: &mut [u32],
    cells: &mut [u8],
    input: u8,
    pid: u16,
    section: &[u8],
)
    requires { RecordReady follow (record_of words.old slots.old cells.old) }
    ensures { record_of words.new slots.new cells.new ≡ record_after follow (said_of answer) input pid section.now (record_of words.old slots.old cells.old) }
{
    if follow.by_tables() & answer.is_sound() & (pid == 0) {
        pats::enter(words, slots, cells, input, section);
    }
}

// An offer to a gate whose record is ready: the gate answers first, the PAT store last.
pub fn take(
    gate: Gate,
    counters: Counters,
    keys: &mut [u64],
    changes: &mut [u64],
    words: &mut [u64],
    pat_slots: &mut [u32],
    pat_cells: &mut [u8],
    input: u8,
    pid: u16,
    section: &[u8],
) -> Offered
    requires { RecordReady gate.follow (record_of words.old pat_slots.old pat_cells.old) }
    ensures { left_with result keys.new changes.new (record_of words.new pat_slots.new pat_cells.new) ≡ taken_with (kept_of gate counters keys.old changes.old (record_of words.old pat_slots.old pat_cells.old)) input pid section.now }
{
    let follow = gate.follow;
    let offered = gate::offer(gate, counters, keys, changes, words, input, pid, section);
    let answer = offered.answer;
    enter(
        follow, answer, words, pat_slots, pat_cells, input, pid, section,
    );
    offered
}
