// The gate: which sections are new and which repeat what was seen, counted, and which PIDs a changed PAT adds to the watch.
// What is small goes in by value and comes back in the answer; the rows of the ring and the words of the watch are lent.
#![tactic(auto)]

ghost use Rattle.std.specs.Prelude.{◌≡◌, length};
ghost use Rattle.gate.specs.Store.{begun_by, opened, store_of, left_by, offered};

use answers::Refusal;
use counters::Counters;
use gate_state::{Gate, Offered, Opened, Settings};
use offers::Verdict;

pub mod inner;

// Opens a gate with no rows and fresh counters, and its watch: 12 where an extra PID is 8192 or more, 13 where less is lent than the settings
// need or there is no such change rule, else 7. A refusal writes nothing. The rows are not read: a gate with no rows has nothing in them.
pub fn open(
    settings: Settings,
    extra: &[u16],
    keys: &[u64],
    changes: &[u64],
    words: &mut [u64],
) -> Opened
    ensures { begun_by result words.new ≡ opened settings extra.now (length keys.now) (length changes.now) words.old }
{
    if !watched::inner::pids_good(extra) {
        return gate_state::begin(Err(Refusal::BadPid), settings);
    }
    if !inner::can_open(settings, keys.len(), changes.len(), words.len()) {
        return gate_state::begin(Err(Refusal::TooLittle), settings);
    }
    watched::inner::fill(words, settings.well_known, extra);
    gate_state::begin(Ok(()), settings)
}

// Offers a section that came on an input and a PID, watched or not. Every content of what is given has one answer: 10, 11, 12 and 37 change nothing at all.
pub fn offer(
    gate: Gate,
    counters: Counters,
    keys: &mut [u64],
    changes: &mut [u64],
    words: &mut [u64],
    input: u8,
    pid: u16,
    section: &[u8],
) -> Offered
    ensures { left_by result keys.new changes.new words.new ≡ offered (store_of gate counters keys.old changes.old words.old) input pid section.now }
{
    let whole = inner::is_whole(gate, keys.len(), changes.len(), words.len());
    match offers::judge(whole, counters, gate.change_rule, input, pid, section) {
        Verdict::Refused(refusal) => gate_state::refuse(refusal, gate, counters),
        Verdict::Failed(failure) => gate_state::fail(failure, gate, counters),
        Verdict::Arrived(arrival) => inner::admit(
            gate, counters, keys, changes, words, arrival, section,
        ),
    }
}
