// The sections of a set, and of a table of a schedule, one after another, in a store that is whole (docs/RULES.md, "Collectors").
#![tactic(auto)]

ghost use Rattle.std.specs.Prelude.{◌≡◌, ◌+◌, ◌*◌, ◌≤◌, length};
ghost use Rattle.eit_next.specs.Following.{row_next, unit_next, schedule_next};

use readers::Next;

// The first filled slot at or after `from` of the set in a row.
pub fn in_row(
    heads: &[u64],
    slots: &[u32],
    used: usize,
    size: usize,
    row: usize,
    from: usize,
) -> Next
    requires { (used * 12 ≤ length heads.now) × (used * 288 ≤ length slots.now) × (size ≤ 4096) }
    ensures { result ≡ row_next heads.now slots.now used size row from }
{
    if row < used {
        return readers::next_slot(rows::row_slots(heads, slots, row), size, from);
    }
    readers::no_section(Ok(false))
}

// The same of a table of the schedule in a row. Tables count from the first of the kind, 0x50 or 0x60, on.
pub fn in_schedule(
    schedule_heads: &[u64],
    units: &[u32],
    schedules: usize,
    size: usize,
    row: usize,
    table: usize,
    from: usize,
) -> Next
    requires { (schedules * 12 ≤ length schedule_heads.now) × (schedules * 4608 ≤ length units.now) × (size ≤ 4096) }
    ensures { result ≡ schedule_next schedule_heads.now units.now schedules size row table from }
{
    if schedules <= row {
        return readers::no_section(Ok(false));
    }
    if schedules::tables_of(schedule_heads, row) <= table {
        return readers::no_section(Ok(false));
    }
    in_unit(units, size, row * schedules::TABLES + table, from)
}

// The first filled slot at or after `from` of unit u, where the unit is present.
fn in_unit(units: &[u32], size: usize, u: usize, from: usize) -> Next
    requires { (u * 288 + 288 ≤ length units.now) × (size ≤ 4096) }
    ensures { result ≡ unit_next size units.now u from }
{
    if units::is_present(units, u) {
        return readers::next_slot(units::unit_slots(units, u), size, from);
    }
    readers::no_section(Ok(false))
}
