// The log of a section list written into the room for it (docs/RULES.md, "Logs"). A part of the writer: it has measured the log before, and what would find
// no room is left out.
#![tactic(auto)]

ghost use Rattle.std.specs.Prelude.{◌≤◌, length};
ghost use Rattle.log_list.specs.List.{WholeFrom};
ghost use Rattle.log_state.specs.State.{lent};
ghost use Rattle.log_sections.specs.Steps.{shown_in, memory};
ghost use Rattle.log_fill.specs.Fill.{PutAt, FilledBy};

use log_entries::Entry;
use log_list::Sections;
use log_state::Run;

// The records of one section go in at `at`; what is told is where the next begin.
fn put(room: &mut [u8], at: usize, entry: Entry) -> usize
    requires at_in_bounds { at ≤ length room.old }
    requires length_in_bounds { entry.length ≤ length entry.bytes }
    ensures { PutAt room.old at (shown_in entry) result room.new }
{
    let bytes = entry.bytes;
    let n = entry.length.min(room.len() - at);
    cells::keep(room, at, &bytes[0..n]);
    at + n
}

// All sections of a whole list.
pub fn write_all(
    run: Run,
    keys: &mut [u64],
    changes: &mut [u64],
    heads: &mut [u64],
    slots: &mut [u32],
    cells: &mut [u8],
    sections: &[u8],
    room: &mut [u8],
)
    requires { WholeFrom sections.now 0 }
    ensures { FilledBy sections.now room.old (lent run keys.old changes.old heads.old slots.old cells.old) room.new (memory keys.new changes.new heads.new slots.new cells.new) }
{
    let mut now = run;
    let mut at = 0;
    for place in Sections::new(sections, 0) {
        let step = log_sections::take_one(now, keys, changes, heads, slots, cells, sections, place);
        let entry = step.entry;
        at = put(room, at, entry);
        now = step.run;
    }
}
