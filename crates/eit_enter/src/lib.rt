// A complete set enters the schedule of its service, which is found or made, and goes out once it has all its tables (docs/RULES.md,
// "Collectors").
#![tactic(auto)]

ghost use Rattle.std.specs.Prelude.{◌≡◌};
ghost use Rattle.eit_state.specs.State.{rows};
ghost use Rattle.eit_enter.specs.Entering.{schedule_entry, entered_answer, answered, entered, SettleOk};

use arrivals::Arrival;
use eit_state::{Eit, PushAnswer, Pushed};
use rows::Entry;

// The schedule of an arrival: the kind in the place of table_id, last_table_id in the place of last_section_number.
fn schedule_entry(a: Arrival) -> Entry
    ensures { result ≡ schedule_entry a }
{
    let entry = a.entry;
    let key = units::with_table(entry.key, a.kind);
    Entry {
        key,
        version: 0,
        last: a.tables,
        number: 0,
    }
}

fn entered_answer(all: bool, row: usize) -> PushAnswer
    ensures { result ≡ entered_answer all row }
{
    if all {
        PushAnswer::Schedule(row)
    } else {
        PushAnswer::Nothing
    }
}

// The set of row i enters the schedule of its service, which is found or made, and goes out where it has all its tables.
pub fn enter(
    eit: Eit,
    heads: &[u64],
    slots: &[u32],
    schedule_heads: &mut [u64],
    units: &mut [u32],
    a: Arrival,
    i: usize,
) -> Pushed
    requires { SettleOk (rows eit heads.now slots.now schedule_heads.old units.old) i }
    ensures { answered result heads.now slots.now schedule_heads.new units.new ≡ entered (rows eit heads.now slots.now schedule_heads.old units.old) a i }
{
    let e = schedule_entry(a);
    let sets = eit.sets;
    let r = schedules::find_room(
        schedule_heads,
        sets.limit,
        eit.schedules,
        eit.schedule_evictions,
        e,
    );
    let room = r.room;
    schedules::put_head(schedule_heads, room, e, sets.clock);
    schedules::put_units(
        units,
        heads,
        slots,
        sets.used,
        e,
        eit_becomes::own_table(a),
        i,
        r,
    );
    let answer = entered_answer(schedules::tables_there(units, room.row, e), room.row);
    Pushed {
        answer,
        eit: eit_state::with_schedules(eit, room.used, room.evictions),
    }
}
