// The slots that a reader (crate readers) is given, where the store is whole and every row in use has a PID: those of a set in use, of an EIT set in use, and of a
// table of a schedule in use. None else. While they are lent the store can't change, so a host asks once for a whole set.
#![tactic(auto)]

ghost use Rattle.std.specs.Prelude.{◌≡◌, [], ◌+◌, ◌*◌, ◌≤◌, length};
ghost use Rattle.store.specs.Store.{store};
ghost use Rattle.eit_state.specs.State.{store as eit_store};
ghost use Rattle.reader_rows.specs.Rows.{set_slots, eit_slots, unit_taken, table_slots};

use eit_state::Eit;
use store::Sets;

fn none_of<'a>(slots: &'a [u32]) -> &'a [u32]
    ensures { result.now ≡ [] }
{
    &slots[0..0]
}

// Of the set in a row.
pub fn set_slots<'a>(
    sets: Sets,
    heads: &[u64],
    slots: &'a [u32],
    cells: &[u8],
    row: usize,
) -> &'a [u32]
    ensures { result.now ≡ set_slots (store sets heads.now slots.now cells.now) row }
{
    if store::is_whole(sets, heads, slots, cells) {
        if without_pid::any_without_pid(heads, sets.used) {
            return none_of(slots);
        }
        if row < sets.used {
            return rows::row_slots(heads, slots, row);
        }
        return none_of(slots);
    }
    none_of(slots)
}

// Of the EIT set in a row.
pub fn eit_slots<'a>(
    eit: Eit,
    heads: &[u64],
    slots: &'a [u32],
    cells: &[u8],
    schedule_heads: &[u64],
    units: &[u32],
    row: usize,
) -> &'a [u32]
    ensures { result.now ≡ eit_slots (eit_store eit heads.now slots.now cells.now schedule_heads.now units.now) row }
{
    let held = eit.sets;
    if eit_state::is_whole(eit, heads, slots, cells, schedule_heads, units) {
        if eit_pids::any_row_without_pid(eit, heads, schedule_heads) {
            return none_of(slots);
        }
        if row < held.used {
            return rows::row_slots(heads, slots, row);
        }
        return none_of(slots);
    }
    none_of(slots)
}

// Of unit u, where it is present.
fn unit_taken<'a>(units: &'a [u32], u: usize) -> &'a [u32]
    requires { u * 288 + 288 ≤ length units.now }
    ensures { result.now ≡ unit_taken units.now u }
{
    if units::is_present(units, u) {
        return units::unit_slots(units, u);
    }
    none_of(units)
}

// Of a table of the schedule in a row. Tables count from the first of the kind, 0x50 or 0x60, on.
pub fn table_slots<'a>(
    eit: Eit,
    heads: &[u64],
    slots: &[u32],
    cells: &[u8],
    schedule_heads: &[u64],
    units: &'a [u32],
    row: usize,
    table: usize,
) -> &'a [u32]
    ensures { result.now ≡ table_slots (eit_store eit heads.now slots.now cells.now schedule_heads.now units.now) row table }
{
    if eit_state::is_whole(eit, heads, slots, cells, schedule_heads, units) {
        if eit_pids::any_row_without_pid(eit, heads, schedule_heads) {
            return none_of(units);
        }
        if eit.schedules <= row {
            return none_of(units);
        }
        if schedules::tables_of(schedule_heads, row) <= table {
            return none_of(units);
        }
        return unit_taken(units, row * schedules::TABLES + table);
    }
    none_of(units)
}
