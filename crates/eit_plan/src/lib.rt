// What a section does to a store that is whole, decided before anything is written (docs/RULES.md, "Collectors" and "Cells").
#![tactic(auto)]

ghost use Rattle.std.specs.Prelude.{◌≡◌, ◌≤◌};
ghost use Rattle.arrivals.specs.Arrivals.{Numbered};
ghost use Rattle.eit_state.specs.State.{store, rows, Whole, RowsFit, CanCount};
ghost use Rattle.eit_plan.specs.Plan.{free_cell, plan_at, plan_of};

use answers::Refusal;
use arrivals::Arrival;
use eit_state::{Eit, PushAnswer};
use placing::Place;
use rows::Room;

// A section that is there already, in a row.
#[derive(Clone, Copy)]
pub struct Seen {
    pub arrival: Arrival,
    pub row: usize,
}

// A section that is kept: what it says, where its row is, and in which cell its bytes go.
#[derive(Clone, Copy)]
pub struct Keeping {
    pub arrival: Arrival,
    pub room: Room,
    pub cell: usize,
}

// Nothing is written and this is the answer; the section conflicts with what is in its slot, in that row; it is there already; it is kept.
#[derive(Clone, Copy)]
pub enum Plan {
    Leave(PushAnswer),
    Conflict(usize),
    Repeat(Seen),
    Keep(Keeping),
}

// The lowest free cell for a section that goes there, or count where there is none or none is needed.
fn free_cell(
    eit: Eit,
    heads: &[u64],
    slots: &[u32],
    schedule_heads: &[u64],
    units: &[u32],
    place: Place,
) -> usize
    requires rows_fit { RowsFit (rows eit heads.now slots.now schedule_heads.now units.now) }
    requires count_bound { eit.sets.count ≤ 65535 }
    ensures { result ≡ free_cell (rows eit heads.now slots.now schedule_heads.now units.now) place }
{
    let sets = eit.sets;
    match place {
        Place::Conflict(_) => sets.count,
        Place::Repeat(_) => sets.count,
        Place::Goes(room) => {
            let gone = rows::gone_row(room, sets.used);
            schedules::lowest_free(
                heads,
                slots,
                schedule_heads,
                units,
                gone,
                sets.used,
                eit.schedules,
                sets.count,
            )
        }
    }
}

// A section that is kept needs a cell: 21 where there is none.
fn plan_at(count: usize, a: Arrival, place: Place, cell: usize) -> Plan
    ensures { result ≡ plan_at count a place cell }
{
    match place {
        Place::Conflict(i) => Plan::Conflict(i),
        Place::Repeat(i) => Plan::Repeat(Seen { arrival: a, row: i }),
        Place::Goes(room) => {
            if cell < count {
                return Plan::Keep(Keeping {
                    arrival: a,
                    room,
                    cell,
                });
            }
            Plan::Leave(PushAnswer::Refused(Refusal::NoCell))
        }
    }
}

// 20, then limit 0, then where the section goes.
pub fn plan_section(
    eit: Eit,
    heads: &[u64],
    slots: &[u32],
    cells: &[u8],
    schedule_heads: &[u64],
    units: &[u32],
    bytes: &[u8],
    a: Arrival,
) -> Plan
    requires whole { Whole (store eit heads.now slots.now cells.now schedule_heads.now units.now) }
    requires numbered { Numbered a.entry }
    requires can_count { CanCount eit }
    ensures { result ≡ plan_of (store eit heads.now slots.now cells.now schedule_heads.now units.now) bytes.now a }
{
    let sets = eit.sets;
    if sets.size < bytes.len() {
        return Plan::Leave(PushAnswer::Refused(Refusal::TooLong));
    }
    if sets.limit == 0 {
        return Plan::Leave(PushAnswer::Nothing);
    }
    let place = placing::place_section(sets, heads, slots, cells, a.entry, bytes);
    let cell = free_cell(eit, heads, slots, schedule_heads, units, place);
    plan_at(sets.count, a, place, cell)
}
