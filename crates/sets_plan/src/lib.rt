// What a section that arrived does to the rows of the set collector, decided before anything is written (docs/RULES.md, "Collectors" and "Cells"):
// it is refused, it goes nowhere since there is no key to be had, it conflicts, it is there already, or it is kept, in which row and in which cell.
#![tactic(auto)]

ghost use Rattle.std.specs.Prelude.{◌≡◌, ◌*◌, ◌≤◌, length};
ghost use Rattle.cells.specs.Cells.{lowest_free};
ghost use Rattle.rows.specs.Rows.{taken_in};
ghost use Rattle.store.specs.Store.{store, Whole};
ghost use Rattle.arrivals.specs.Arrivals.{Numbered};
ghost use Rattle.sets_plan.specs.Plan.{plan_keep, plan_placed, plan_of, Ready};

use answers::Refusal;
use placing::Place;
use rows::{Entry, Room};
use store::Sets;

// A section that is kept: what it says, where its row is, and in which cell its bytes go.
#[derive(Clone, Copy)]
pub struct Keeping {
    pub entry: Entry,
    pub room: Room,
    pub cell: usize,
}

// `Silent` is limit 0: there is nothing to hand out and nothing changes.
#[derive(Clone, Copy)]
pub enum Plan {
    Refuse(Refusal),
    Silent,
    Conflict(usize),
    Repeat(usize),
    Keep(Keeping),
}

// The lowest cell that no slot of a row in use, other than the row `gone`, names, or count where there is none.
fn lowest_free(heads: &[u64], slots: &[u32], gone: usize, used: usize, count: usize) -> usize
    requires { (used * 12 ≤ length heads.now) × (used * 288 ≤ length slots.now) × (count ≤ 65535) }
    ensures { result ≡ lowest_free (taken_in heads.now slots.now gone used) count }
{
    let mut map = [0u64; 1024];
    rows::mark_rows(&mut map, heads, slots, gone, used);
    cells::lowest_clear(&map, count)
}

// A section that is kept needs a cell.
fn plan_keep(sets: Sets, heads: &[u64], slots: &[u32], cells: &[u8], e: Entry, room: Room) -> Plan
    requires { Whole sets heads.now slots.now cells.now }
    ensures { result ≡ plan_keep (store sets heads.now slots.now cells.now) e room }
{
    let gone = rows::gone_row(room, sets.used);
    let c = lowest_free(heads, slots, gone, sets.used, sets.count);
    if c < sets.count {
        Plan::Keep(Keeping {
            entry: e,
            room,
            cell: c,
        })
    } else {
        Plan::Refuse(Refusal::NoCell)
    }
}

fn plan_placed(sets: Sets, heads: &[u64], slots: &[u32], cells: &[u8], e: Entry, p: Place) -> Plan
    requires { Whole sets heads.now slots.now cells.now }
    ensures { result ≡ plan_placed (store sets heads.now slots.now cells.now) e p }
{
    match p {
        Place::Conflict(i) => Plan::Conflict(i),
        Place::Repeat(i) => Plan::Repeat(i),
        Place::Goes(room) => plan_keep(sets, heads, slots, cells, e, room),
    }
}

// 20, then limit 0, then where the section goes. Nothing is written yet.
pub fn decide(
    sets: Sets,
    heads: &[u64],
    slots: &[u32],
    cells: &[u8],
    e: Entry,
    bytes: &[u8],
) -> Plan
    requires ready { Ready (store sets heads.now slots.now cells.now) }
    requires numbered { Numbered e }
    ensures { result ≡ plan_of (store sets heads.now slots.now cells.now) e bytes.now }
{
    if sets.size < bytes.len() {
        return Plan::Refuse(Refusal::TooLong);
    }
    if sets.limit == 0 {
        return Plan::Silent;
    }
    let p = placing::place_section(sets, heads, slots, cells, e, bytes);
    plan_placed(sets, heads, slots, cells, e, p)
}
