// How long the log of a section list is (docs/RULES.md, "Logs"), as far as there is room for it. A part of the writer.
#![tactic(auto)]

ghost use Rattle.log_list.specs.List.{WholeFrom};
ghost use Rattle.log_state.specs.State.{lent};
ghost use Rattle.log_sections.specs.Steps.{memory};
ghost use Rattle.log_measure.specs.Measure.{MeasuredBy};

use log_list::Sections;
use log_state::Run;

// The log of the sections of a whole list; none where it is longer than the room. It stops at the first section whose records find none.
pub fn measure(
    run: Run,
    keys: &mut [u64],
    changes: &mut [u64],
    heads: &mut [u64],
    slots: &mut [u32],
    cells: &mut [u8],
    sections: &[u8],
    room: usize,
) -> Option<usize>
    requires { WholeFrom sections.now 0 }
    ensures { MeasuredBy sections.now room (lent run keys.old changes.old heads.old slots.old cells.old) result (memory keys.new changes.new heads.new slots.new cells.new) }
{
    let mut now = run;
    let mut free = room;
    for place in Sections::new(sections, 0) {
        let step = log_sections::take_one(now, keys, changes, heads, slots, cells, sections, place);
        let entry = step.entry;
        let size = entry.length;
        if free < size {
            return None;
        }
        now = step.run;
        free -= size;
    }
    Some(room - free)
}
