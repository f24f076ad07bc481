// What an EIT section, a present/following set that was handed out, and a table of a schedule that was handed out say (docs/RULES.md, "Entries"; EN 300 468, 5.2.4):
// every event and every descriptor, one entry of twelve words each, into a lent list. The list is a window: it shows entries from `skip` on as far as there is room,
// and `count` says how many there are. Every call takes any content of what is lent and has one answer.
#![tactic(auto)]

ghost use Rattle.std.specs.Prelude.{◌≡◌, ◌+◌, ◌*◌, ◌<◌, ◌≤◌, length};
ghost use Rattle.section.specs.Header.{byte_at};
ghost use Rattle.eit_state.specs.State.{store};
ghost use Rattle.schedules.specs.Schedules.{tables_of};
ghost use Rattle.showing.specs.Store.{schedule_whole, table_out, shown_section, shown_set, shown_table};

use answers::Refusal;
use eit_state::Eit;
use rows::Entry;
use section::{bytes, header};
use shown_sections::{ShowAnswer, Shown};

// section_number, and 0 where there is none.
fn section_number(s: &[u8]) -> usize
    ensures { (result ≡ byte_at s.now 6) × (result < 256) }
{
    if 6 < s.len() {
        return bytes::wide(s[6]);
    }
    0
}

// The events of a section. Its form and its CRC are not judged here: a collector did.
pub fn events(section: &[u8], skip: usize, list: &mut [u32]) -> Shown
    ensures { (result, list.new) ≡ shown_section section.now skip list.old }
{
    if header::is_malformed(section) {
        return shown_sections::nothing(ShowAnswer::Refused(Refusal::Malformed));
    }
    let number = section_number(section);
    let last = shown_sections::show_section(section, 0, section.len(), number, skip, list, 0);
    shown_sections::told(skip, last)
}

// The events of the set in a row.
pub fn events_of_set(
    eit: Eit,
    heads: &[u64],
    slots: &[u32],
    cells: &[u8],
    schedule_heads: &[u64],
    units: &[u32],
    row: usize,
    skip: usize,
    list: &mut [u32],
) -> Shown
    ensures { (result, list.new) ≡ shown_set (store eit heads.now slots.now cells.now schedule_heads.now units.now) row skip list.old }
{
    let sets = eit.sets;
    let whole = eit_state::is_whole(eit, heads, slots, cells, schedule_heads, units);
    if whole {
        let without = eit_pids::any_row_without_pid(eit, heads, schedule_heads);
        if without {
            return shown_sections::nothing(ShowAnswer::Refused(Refusal::NoPid));
        }
        if handed::is_set_out(heads, sets.used, row) {
            let part = rows::row_slots(heads, slots, row);
            return shown_sections::show_slots(part, sets.size, cells, skip, list);
        }
        return shown_sections::nothing(ShowAnswer::No);
    }
    shown_sections::nothing(ShowAnswer::Refused(Refusal::NotWhole))
}

// Whether the schedule in a row has every table from the first of its kind to last_table_id.
fn is_schedule_whole(schedule_heads: &[u64], units: &[u32], row: usize) -> bool
    requires { (row * 12 + 12 ≤ length schedule_heads.now) × ((row * 16 + 16) * 288 ≤ length units.now) }
    ensures { result ≡ schedule_whole schedule_heads.now units.now row }
{
    let head = Entry {
        key: rows::key_at(schedule_heads, row),
        version: 0,
        last: rows::last(schedule_heads, row),
        number: 0,
    };
    schedules::tables_there(units, row, head)
}

// Whether the schedule in a row in use has that table, and every other up to its last.
fn is_table_out(
    schedule_heads: &[u64],
    units: &[u32],
    schedules: usize,
    row: usize,
    table: usize,
) -> bool
    requires { (schedules * 12 ≤ length schedule_heads.now) × (schedules * 4608 ≤ length units.now) }
    ensures { result ≡ table_out schedule_heads.now units.now schedules row table }
{
    if schedules <= row {
        return false;
    }
    if schedules::tables_of(schedule_heads, row) <= table {
        return false;
    }
    is_schedule_whole(schedule_heads, units, row)
}

// The events of a table of the schedule in a row. Tables count from the first of the kind, 0x50 or 0x60, on.
pub fn events_of_table(
    eit: Eit,
    heads: &[u64],
    slots: &[u32],
    cells: &[u8],
    schedule_heads: &[u64],
    units: &[u32],
    row: usize,
    table: usize,
    skip: usize,
    list: &mut [u32],
) -> Shown
    ensures { (result, list.new) ≡ shown_table (store eit heads.now slots.now cells.now schedule_heads.now units.now) row table skip list.old }
{
    let sets = eit.sets;
    if eit_state::is_whole(eit, heads, slots, cells, schedule_heads, units) {
        if eit_pids::any_row_without_pid(eit, heads, schedule_heads) {
            return shown_sections::nothing(ShowAnswer::Refused(Refusal::NoPid));
        }
        if is_table_out(schedule_heads, units, eit.schedules, row, table) {
            let part = units::unit_slots(units, row * schedules::TABLES + table);
            return shown_sections::show_slots(part, sets.size, cells, skip, list);
        }
        return shown_sections::nothing(ShowAnswer::No);
    }
    shown_sections::nothing(ShowAnswer::Refused(Refusal::NotWhole))
}
