// A section is offered to a store that is whole: what becomes of it is decided, and carried out (docs/RULES.md, "Collectors").
#![tactic(auto)]

ghost use Rattle.std.specs.Prelude.{◌≡◌};
ghost use Rattle.arrivals.specs.Arrivals.{Numbered};
ghost use Rattle.eit_state.specs.State.{store, Whole, CanCount};
ghost use Rattle.eit_plan.specs.Plan.{KeepOk, PlanOk};
ghost use Rattle.eit_carry.specs.Carried.{step, kept_and_settled, carried, pushed_whole};

use arrivals::Arrival;
use eit_plan::{Keeping, Plan};
use eit_state::{Eit, Pushed};

// The section is kept, and its row settled.
fn keep_section(
    eit: Eit,
    heads: &mut [u64],
    slots: &mut [u32],
    cells: &mut [u8],
    schedule_heads: &mut [u64],
    units: &mut [u32],
    bytes: &[u8],
    k: Keeping,
) -> Pushed
    requires { KeepOk (store eit heads.old slots.old cells.old schedule_heads.old units.old) bytes.now k }
    ensures { step result heads.new slots.new cells.new schedule_heads.new units.new ≡ kept_and_settled (store eit heads.old slots.old cells.old schedule_heads.old units.old) bytes.now k }
{
    let sets = eit.sets;
    eit_keep::keep(sets.size, heads, slots, cells, bytes, k);
    let room = k.room;
    let then = eit_state::with_sets(eit, room.used, room.evictions);
    eit_settle::settle(
        eit_state::risen(then),
        heads,
        slots,
        schedule_heads,
        units,
        k.arrival,
        room.row,
    )
}

// Carries out what was decided.
pub fn carry(
    eit: Eit,
    heads: &mut [u64],
    slots: &mut [u32],
    cells: &mut [u8],
    schedule_heads: &mut [u64],
    units: &mut [u32],
    bytes: &[u8],
    plan: Plan,
) -> Pushed
    requires { PlanOk (store eit heads.old slots.old cells.old schedule_heads.old units.old) bytes.now plan }
    ensures { step result heads.new slots.new cells.new schedule_heads.new units.new ≡ carried (store eit heads.old slots.old cells.old schedule_heads.old units.old) bytes.now plan }
{
    match plan {
        Plan::Leave(answer) => Pushed { answer, eit },
        Plan::Conflict(i) => {
            let then = eit_state::risen(eit);
            let sets = then.sets;
            let answer = eit_settle::conflict(heads, i, sets.clock);
            Pushed { answer, eit: then }
        }
        Plan::Repeat(x) => eit_settle::settle(
            eit_state::risen(eit),
            heads,
            slots,
            schedule_heads,
            units,
            x.arrival,
            x.row,
        ),
        Plan::Keep(k) => keep_section(eit, heads, slots, cells, schedule_heads, units, bytes, k),
    }
}

// A section that arrived, offered to a store that is whole and can count.
pub fn push_whole(
    eit: Eit,
    heads: &mut [u64],
    slots: &mut [u32],
    cells: &mut [u8],
    schedule_heads: &mut [u64],
    units: &mut [u32],
    bytes: &[u8],
    a: Arrival,
) -> Pushed
    requires whole { Whole (store eit heads.old slots.old cells.old schedule_heads.old units.old) }
    requires numbered { Numbered a.entry }
    requires can_count { CanCount eit }
    ensures { step result heads.new slots.new cells.new schedule_heads.new units.new ≡ pushed_whole (store eit heads.old slots.old cells.old schedule_heads.old units.old) bytes.now a }
{
    let plan = eit_plan::plan_section(eit, heads, slots, cells, schedule_heads, units, bytes, a);
    carry(eit, heads, slots, cells, schedule_heads, units, bytes, plan)
}
