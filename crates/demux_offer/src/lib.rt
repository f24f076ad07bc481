// A section of a packet, offered to the gate (docs/RULES.md, "Packets"): PIDs that leave the watch by it give their buffers back.
#![tactic(auto)]

ghost use Rattle.std.specs.Prelude.{◌≡◌, ◌≤◌, length, take};
ghost use Rattle.streams.specs.Store.{left_of, given_back};
ghost use Rattle.pats.specs.Store.{record_of};
ghost use Rattle.gate_pats.specs.Store.{kept_of, left_with, taken_with};
ghost use Rattle.demux_turns.specs.Offers.{OfferOk};

use counters::Counters;
use gate_state::{Gate, Offered};

const SET_WORDS: usize = 128;

// The watched PIDs.
pub fn copy_set(set: &mut [u64], words: &[u64])
    requires { (length set.old ≡ 128) × (128 ≤ length words.now) }
    ensures { set.new ≡ take 128 words.now }
{
    set.copy_from_slice(&words[0..SET_WORDS]);
}

// A PAT: it may change the watch, so the PIDs watched before it are compared with those after it.
fn offer_pat(
    gate: Gate,
    counters: Counters,
    keys: &mut [u64],
    changes: &mut [u64],
    words: &mut [u64],
    pat_slots: &mut [u32],
    pat_cells: &mut [u8],
    pids: &mut [u64],
    input: u8,
    pid: u16,
    section: &[u8],
) -> Offered
    requires { OfferOk gate (record_of words.old pat_slots.old pat_cells.old) pids.old }
    ensures pat_cells_after { left_with result keys.new changes.new (record_of words.new pat_slots.new pat_cells.new) ≡ taken_with (kept_of gate counters keys.old changes.old (record_of words.old pat_slots.old pat_cells.old)) input pid section.now }
    ensures pids_after { pids.new ≡ given_back (left_of words.old words.new) 8192 pids.old }
{
    let mut before = [0u64; 128];
    copy_set(&mut before, words);
    let offered = gate_pats::inner::take(
        gate, counters, keys, changes, words, pat_slots, pat_cells, input, pid, section,
    );
    streams::inner::give_back(pids, &before, words);
    offered
}

// Any section. What is no readable PAT changes no watch.
pub fn offer(
    gate: Gate,
    counters: Counters,
    keys: &mut [u64],
    changes: &mut [u64],
    words: &mut [u64],
    pat_slots: &mut [u32],
    pat_cells: &mut [u8],
    pids: &mut [u64],
    input: u8,
    pid: u16,
    section: &[u8],
) -> Offered
    requires { OfferOk gate (record_of words.old pat_slots.old pat_cells.old) pids.old }
    ensures pat_cells_after { left_with result keys.new changes.new (record_of words.new pat_slots.new pat_cells.new) ≡ taken_with (kept_of gate counters keys.old changes.old (record_of words.old pat_slots.old pat_cells.old)) input pid section.now }
    ensures pids_after { pids.new ≡ given_back (left_of words.old words.new) 8192 pids.old }
{
    if pat::is_readable(section) {
        return offer_pat(
            gate, counters, keys, changes, words, pat_slots, pat_cells, pids, input, pid, section,
        );
    }
    gate_pats::inner::take(
        gate, counters, keys, changes, words, pat_slots, pat_cells, input, pid, section,
    )
}
