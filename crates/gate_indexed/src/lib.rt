// The gate with an index over its rows: a key is looked up, held and given up in a time that does not grow with the capacity. From an opened store
// it answers and leaves rows as the gate without an index. What is small goes in by value and comes back in the answer.
#![tactic(auto)]

ghost use Rattle.std.specs.Prelude.{◌≡◌, length};
ghost use Rattle.ring_index.specs.Store.{index_of};
ghost use Rattle.gate_indexed.specs.Store.{begun_by, opened_by, indexed_of, left_by, offered_by};

use answers::Refusal;
use counters::Counters;
use gate_state::{Gate, Offered, Opened, Settings};
use offers::Verdict;

pub mod inner;

// Opens a gate with no rows and fresh counters, its index and its watch: 12 where an extra PID is 8192 or more, 13 where less is lent than the
// settings need or there is no such change rule, else 7. A refusal writes nothing. Only the buckets are cleared: no row is in a chain, so nothing else is read.
pub fn open(
    settings: Settings,
    extra: &[u16],
    keys: &[u64],
    changes: &[u64],
    buckets: &mut [u64],
    links: &[u64],
    words: &mut [u64],
) -> Opened
    ensures { begun_by result buckets.new words.new ≡ opened_by settings extra.now (length keys.now) (length changes.now) (length links.now) buckets.old words.old }
{
    if !watched::inner::pids_good(extra) {
        return gate_state::begin(Err(Refusal::BadPid), settings);
    }
    if !inner::can_open(
        settings,
        keys.len(),
        changes.len(),
        buckets.len(),
        links.len(),
        words.len(),
    ) {
        return gate_state::begin(Err(Refusal::TooLittle), settings);
    }
    ring_index::clear(buckets, ring::room(settings.capacity));
    watched::inner::fill(words, settings.well_known, extra);
    gate_state::begin(Ok(()), settings)
}

// Offers a section that came on an input and a PID, watched or not. Every content of what is given has one answer: 10, 11, 12 and 37 change nothing at all.
pub fn offer(
    gate: Gate,
    counters: Counters,
    keys: &mut [u64],
    changes: &mut [u64],
    buckets: &mut [u64],
    links: &mut [u64],
    words: &mut [u64],
    input: u8,
    pid: u16,
    section: &[u8],
) -> Offered
    ensures { left_by result keys.new changes.new (index_of buckets.new links.new) words.new ≡ offered_by (indexed_of gate counters keys.old changes.old (index_of buckets.old links.old) words.old) input pid section.now }
{
    let whole = inner::is_whole(
        gate,
        keys.len(),
        changes.len(),
        buckets.len(),
        links.len(),
        words.len(),
    );
    match offers::judge(whole, counters, gate.change_rule, input, pid, section) {
        Verdict::Refused(refusal) => gate_state::refuse(refusal, gate, counters),
        Verdict::Failed(failure) => gate_state::fail(failure, gate, counters),
        Verdict::Arrived(arrival) => inner::admit(
            gate, counters, keys, changes, buckets, links, words, arrival, section,
        ),
    }
}
