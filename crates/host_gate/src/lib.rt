// The gate and the watch for a host in another language, which keeps a gate and its counters as plain words: what the words hold is taken apart, the one
// call is made, and what it leaves is written back. Every content of the words has one answer.
#![tactic(auto)]

ghost use Rattle.std.specs.Prelude.{◌≡◌};
ghost use Rattle.host_gate.specs.Calls.{begun, gate_opened, left, gate_offered, watch_opened, watch_asked};
ghost use Rattle.host_words.specs.Answers.{words};
ghost use Rattle.pats.specs.Store.{record_of};

use answers::Numbered;

// Opens a gate and the watch record of one input: 7, 12 or 13. `settings` are bits: 1 repeats, 2 follow complete PATs, 4 well-known PIDs, 8 with 2 each changed
// PAT section. A refusal writes nothing.
pub fn open(
    gate: &mut [u64; 13],
    capacity: u64,
    settings: u32,
    change_rule: u64,
    extra: &[u16],
    keys: &[u64],
    changes: &[u64],
    watch: &mut [u64],
    pat_slots: &[u32],
    pat_cells: &[u8],
) -> u8
    ensures { begun result gate.new watch.new ≡ gate_opened gate.old capacity settings change_rule extra.now keys.now changes.now pat_slots.now pat_cells.now watch.old }
{
    let asked = host_gate_words::settings(capacity, settings, change_rule);
    let opened = gate_pats::open(asked, extra, keys, changes, watch, pat_slots, pat_cells);
    host_gate_words::write_opened(gate, opened)
}

// Offers a section that came on an input and a PID, watched or not: 1, 2, 3, 10, 11, 12, 31 or 37. 31 and 3 tell what the section failed by.
pub fn offer(
    gate: &mut [u64; 13],
    keys: &mut [u64],
    changes: &mut [u64],
    watch: &mut [u64],
    pat_slots: &mut [u32],
    pat_cells: &mut [u8],
    input: u32,
    pid: u32,
    section: &[u8],
    failure: &mut [u64; 3],
) -> u8
    ensures { left result gate.new keys.new changes.new (record_of watch.new pat_slots.new pat_cells.new) failure.new ≡ gate_offered gate.old keys.old changes.old (record_of watch.old pat_slots.old pat_cells.old) input pid section.now failure.old }
{
    let held = host_gate_words::read(gate);
    let from = host_words::inputs::number(input);
    let number = host_words::pids::number(pid);
    let offered = gate_pats::offer(
        held.gate,
        held.counters,
        keys,
        changes,
        watch,
        pat_slots,
        pat_cells,
        from,
        number,
        section,
    );
    host_gate_words::write_offered(gate, failure, offered)
}

// Opens the watch record of a further input: 7, 12 or 13. Of `settings` how PATs are followed and the well-known PIDs are looked at. A refusal writes nothing.
pub fn open_watch(
    settings: u32,
    extra: &[u16],
    watch: &mut [u64],
    pat_slots: &[u32],
    pat_cells: &[u8],
) -> u8
    ensures { words result watch.new ≡ watch_opened settings extra.now pat_slots.now pat_cells.now watch.old }
{
    let asked = host_gate_words::settings(0, settings, 0);
    gate_pats::open_record(asked, extra, watch, pat_slots, pat_cells).number()
}

// Whether a PID is watched: 8, 9, 10 or 12.
pub fn ask(watch: &[u64], pid: u32) -> u8
    ensures { result ≡ watch_asked watch.now pid }
{
    watched::ask(watch, host_words::pids::number(pid)).number()
}
