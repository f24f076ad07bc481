// The gate's parts: what an offer that nothing refuses does, step by step.
ghost use Rattle.std.specs.Prelude.{◌≡◌, ◌&&◌, ◌<◌, ◌≤◌, length};
ghost use Rattle.section.specs.Header.{table_id_of};
ghost use Rattle.counters.specs.Counters.{CanCount};
ghost use Rattle.gate_state.specs.State.{by_sections};
ghost use Rattle.gate.specs.Store.{whole_of, can_open, Fits, followed_pat, watch_after, store_of, left_by, admitted_to};

use counters::Counters;
use gate_state::{Gate, Offered, Settings};
use offers::Arrival;
use ring::Seen;
use section::header::ChangeRule;

// Not 10: the ring fits its slices, the watch has its words, and there is such a change rule.
pub fn is_whole(gate: Gate, keys: usize, changes: usize, words: usize) -> bool
    ensures { result ≡ whole_of gate keys changes words }
{
    let ring = gate.ring;
    ring::is_whole(ring, keys, changes)
        & (watched::WORDS <= words)
        & ChangeRule::is_known(gate.change_rule)
}

// Not 13: a row of each slice for each key that is to be held, the watch's words, and a change rule that there is.
pub fn can_open(settings: Settings, keys: usize, changes: usize, words: usize) -> bool
    ensures { result ≡ can_open settings keys changes words }
{
    let all = ring::room(settings.capacity);
    (all <= keys)
        & (all <= changes)
        & (watched::WORDS <= words)
        & ChangeRule::is_known(settings.change_rule)
}

// Replaces the PIDs that the last PAT added to the watch by those of this one. What is no readable PAT changes no watch.
fn follow_pat(words: &mut [u64], section: &[u8])
    requires { 384 ≤ length words.old }
    ensures { words.new ≡ followed_pat words.old section.now }
{
    let mut programs = [0u64; 128];
    match pat::programs(section, &mut programs) {
        pat::Pat::Readable => watched::inner::follow(words, &programs),
        pat::Pat::Unreadable => {}
    }
}

// A changed PAT section is followed where each of them is. One that is emitted only because repeats are on is not.
pub fn follow(gate: Gate, seen: Seen, table_id: u8, words: &mut [u64], section: &[u8])
    requires in_bounds { 384 ≤ length words.old }
    requires table_id_value { table_id ≡ table_id_of section.now }
    ensures { words.new ≡ watch_after (seen.changed && by_sections gate.follow) words.old section.now }
{
    let follow = gate.follow;
    if seen.changed & follow.by_sections() & (table_id == 0) {
        follow_pat(words, section);
    }
}

// A section that arrived: it is looked up and kept, followed where it is a changed PAT, and answered.
pub fn admit(
    gate: Gate,
    counters: Counters,
    keys: &mut [u64],
    changes: &mut [u64],
    words: &mut [u64],
    arrival: Arrival,
    section: &[u8],
) -> Offered
    requires can_count { CanCount counters }
    requires fits { Fits gate (length keys.old) (length changes.old) (length words.old) }
    requires table_id_value { arrival.table_id ≡ table_id_of section.now }
    ensures { left_by result keys.new changes.new words.new ≡ admitted_to (store_of gate counters keys.old changes.old words.old) section.now arrival }
{
    let ring = gate.ring;
    let seen = ring::admit(
        ring,
        keys,
        changes,
        arrival.key,
        arrival.version,
        arrival.change,
    );
    follow(gate, seen, arrival.table_id, words, section);
    gate_state::tell(gate, counters, seen)
}
