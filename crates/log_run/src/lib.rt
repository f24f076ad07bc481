// A section through a run of a log (docs/RULES.md, "Logs"): it is judged, looked up in the gate's rows and given to the collector, and its records are told.
// The host keeps a `Run` by value and lends five slices at every call: keys and changes of the gate, heads, slots and cells of the collector.
#![tactic(auto)]

ghost use Rattle.std.specs.Prelude.{◌≡◌, length};
ghost use Rattle.store.specs.Store.{store};
ghost use Rattle.log_state.specs.State.{lent, Arrives};
ghost use Rattle.log_run.specs.Store.{after_take, shown, seen_in, taken_of};

use log_entries::Entry;
use log_state::{Ruling, Run, Sight, TakeError};

#[derive(Clone, Copy)]
pub struct Taken {
    pub answer: Result<(), TakeError>,
    pub entry: Entry,
    pub run: Run,
}

// A section that arrived: it is looked up and kept, and the collector gets it, emitted or suppressed.
fn admit(
    run: Run,
    keys: &mut [u64],
    changes: &mut [u64],
    heads: &mut [u64],
    slots: &mut [u32],
    cells: &mut [u8],
    sight: Sight,
    input: u8,
    pid: u16,
    section: &[u8],
) -> Taken
    requires { Arrives run (length keys.old) (length changes.old) (store run.sets heads.old slots.old cells.old) input pid }
    ensures { after_take result keys.new changes.new heads.new slots.new cells.new ≡ shown (seen_in (lent run keys.old changes.old heads.old slots.old cells.old) input pid section.now sight) }
{
    let ring = run.ring;
    let sets = run.sets;
    let parts = sight.parts;
    let pids = run.pids;
    let with = pids.is_with();
    let from = log_steps::origin_for(with, input, pid);
    let seen = ring::admit(ring, keys, changes, sight.key, parts.version, parts.change);
    let pushed = log_steps::gather(sets, heads, slots, cells, from, section);
    let kind = log_steps::seen_kind(seen.changed, run.repeats);
    let answer = pushed.answer;
    let entry = log_steps::note(kind, input, pid, parts, with, section, answer);
    let ring_then = seen.ring;
    let sets_then = pushed.sets;
    Taken {
        answer: Ok(()),
        entry,
        run: Run {
            ring: ring_then,
            sets: sets_then,
            ..run
        },
    }
}

// One section: 42, 10, 11, 12, 37 or 7. Only 7 changes anything or gives records.
pub fn take(
    run: Run,
    keys: &mut [u64],
    changes: &mut [u64],
    heads: &mut [u64],
    slots: &mut [u32],
    cells: &mut [u8],
    input: u8,
    pid: u16,
    section: &[u8],
) -> Taken
    ensures { after_take result keys.new changes.new heads.new slots.new cells.new ≡ taken_of (lent run keys.old changes.old heads.old slots.old cells.old) input pid section.now }
{
    match log_state::judge(
        run,
        keys.len(),
        changes.len(),
        heads,
        slots,
        cells,
        input,
        pid,
        section,
    ) {
        Err(error) => Taken {
            answer: Err(error),
            entry: log_entries::none(),
            run,
        },
        Ok(Ruling::Failed(short)) => Taken {
            answer: Ok(()),
            entry: log_entries::failed_entry(short, input, pid, section.len()),
            run,
        },
        Ok(Ruling::Arrived(sight)) => admit(
            run, keys, changes, heads, slots, cells, sight, input, pid, section,
        ),
    }
}
