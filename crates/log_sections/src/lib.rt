// The sections of a list through a run of a log, one at a time (docs/RULES.md, "Logs"). A part of the checker and of the writer.
#![tactic(auto)]

ghost use Rattle.std.specs.Prelude.{◌+◌, ◌≤◌, length};
ghost use Rattle.log_state.specs.State.{lent};
ghost use Rattle.log_sections.specs.Steps.{Stepped};

use log_entries::Entry;
use log_list::Place;
use log_state::Run;

// The run that a section left, and the records that it gave.
#[derive(Clone, Copy)]
pub struct Step {
    pub run: Run,
    pub entry: Entry,
}

// The section of the list that a place tells of.
pub fn take_one(
    run: Run,
    keys: &mut [u64],
    changes: &mut [u64],
    heads: &mut [u64],
    slots: &mut [u32],
    cells: &mut [u8],
    sections: &[u8],
    place: Place,
) -> Step
    requires { place.start + place.length ≤ length sections.now }
    ensures { Stepped sections.now place (lent run keys.old changes.old heads.old slots.old cells.old) result (lent result.run keys.new changes.new heads.new slots.new cells.new) }
{
    let start = place.start;
    let end = start + place.length;
    let taken = log_run::take(
        run,
        keys,
        changes,
        heads,
        slots,
        cells,
        place.input,
        place.pid,
        &sections[start..end],
    );
    let left = taken.run;
    let entry = taken.entry;
    Step { run: left, entry }
}
