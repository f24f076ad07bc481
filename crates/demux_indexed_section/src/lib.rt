// A section that a packet finished, offered to the gate with an index over its rows: as without an index (crate demux_offer). After it, PIDs that left the watch
// give their buffers back.
#![tactic(auto)]

ghost use Rattle.std.specs.Prelude.{◌≡◌};
ghost use Rattle.ring_index.specs.Store.{index_of};
ghost use Rattle.streams.specs.Store.{left_of, given_back};
ghost use Rattle.pats.specs.Store.{record_of};
ghost use Rattle.gate_pats_indexed.specs.Store.{kept_by, left_with, taken_by};
ghost use Rattle.demux_turns.specs.Offers.{OfferOk};

use counters::Counters;
use gate_state::{Gate, Offered};

// A PAT: it may change the watch, so the PIDs watched before it are compared with those after it.
fn offer_pat(
    gate: Gate,
    counters: Counters,
    keys: &mut [u64],
    changes: &mut [u64],
    buckets: &mut [u64],
    links: &mut [u64],
    words: &mut [u64],
    pat_slots: &mut [u32],
    pat_cells: &mut [u8],
    pids: &mut [u64],
    input: u8,
    pid: u16,
    section: &[u8],
) -> Offered
    requires { OfferOk gate (record_of words.old pat_slots.old pat_cells.old) pids.old }
    ensures pat_cells_after { left_with result keys.new changes.new (index_of buckets.new links.new) (record_of words.new pat_slots.new pat_cells.new) ≡ taken_by (kept_by gate counters keys.old changes.old (index_of buckets.old links.old) (record_of words.old pat_slots.old pat_cells.old)) input pid section.now }
    ensures pids_after { pids.new ≡ given_back (left_of words.old words.new) 8192 pids.old }
{
    let mut before = [0u64; 128];
    demux_offer::copy_set(&mut before, words);
    let offered = gate_pats_indexed::inner::take(
        gate, counters, keys, changes, buckets, links, words, pat_slots, pat_cells, input, pid,
        section,
    );
    streams::inner::give_back(pids, &before, words);
    offered
}

// Any section. What is no readable PAT changes no watch.
pub fn offer(
    gate: Gate,
    counters: Counters,
    keys: &mut [u64],
    changes: &mut [u64],
    buckets: &mut [u64],
    links: &mut [u64],
    words: &mut [u64],
    pat_slots: &mut [u32],
    pat_cells: &mut [u8],
    pids: &mut [u64],
    input: u8,
    pid: u16,
    section: &[u8],
) -> Offered
    requires { OfferOk gate (record_of words.old pat_slots.old pat_cells.old) pids.old }
    ensures pat_cells_after { left_with result keys.new changes.new (index_of buckets.new links.new) (record_of words.new pat_slots.new pat_cells.new) ≡ taken_by (kept_by gate counters keys.old changes.old (index_of buckets.old links.old) (record_of words.old pat_slots.old pat_cells.old)) input pid section.now }
    ensures pids_after { pids.new ≡ given_back (left_of words.old words.new) 8192 pids.old }
{
    if pat::is_readable(section) {
        return offer_pat(
            gate, counters, keys, changes, buckets, links, words, pat_slots, pat_cells, pids,
            input, pid, section,
        );
    }
    gate_pats_indexed::inner::take(
        gate, counters, keys, changes, buckets, links, words, pat_slots, pat_cells, input, pid,
        section,
    )
}
