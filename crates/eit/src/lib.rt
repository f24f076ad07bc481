// The EIT collector: EIT sections in, complete present/following sets and complete schedules out (docs/RULES.md, "Collectors"; EN 300 468, 5.2.4).
// The host keeps an `Eit` by value and lends five slices at every call: heads (12 words a set) and slots (288 words a set), cells,
// schedule_heads (12 words a schedule) and units (16 * 288 words a schedule). Every call takes any content of them and has one answer; a
// refusal leaves them as they were, but 22, which touches the key, and 23, which keeps the section.
#![tactic(auto)]

ghost use Rattle.std.specs.Prelude.{◌≡◌};
ghost use Rattle.eit_state.specs.State.{store, asked};
ghost use Rattle.eit.specs.Store.{turned, pushed, opened_of, cleared_of, dropped_of, pushed_of, next_of, next_in_of};

use answers::Refusal;
use eit_drop::Filter;
use eit_state::{Eit, PushAnswer, Pushed, Turned};
use readers::Next;

// Opens a collector: no rows, counts 0. Nothing lent is written; a refusal gives back the settings that were asked for.
pub fn open(
    limit: usize,
    size: usize,
    count: usize,
    heads: &[u64],
    slots: &[u32],
    cells: &[u8],
    schedule_heads: &[u64],
    units: &[u32],
) -> Turned
    ensures { turned result heads.now slots.now cells.now schedule_heads.now units.now ≡ opened_of (store (asked limit size count) heads.now slots.now cells.now schedule_heads.now units.now) }
{
    eit_state::opened(
        limit,
        size,
        count,
        heads.len(),
        slots.len(),
        cells.len(),
        schedule_heads.len(),
        units.len(),
    )
}

// Offers a section with the PID that it came on; without one it is refused (41).
pub fn push(
    eit: Eit,
    heads: &mut [u64],
    slots: &mut [u32],
    cells: &mut [u8],
    schedule_heads: &mut [u64],
    units: &mut [u32],
    input: u8,
    pid: Option<u16>,
    bytes: &[u8],
) -> Pushed
    ensures { pushed result heads.new slots.new cells.new schedule_heads.new units.new ≡ pushed_of (store eit heads.old slots.old cells.old schedule_heads.old units.old) input pid bytes.now }
{
    match eit_admit::admit(
        eit,
        heads,
        slots,
        cells,
        schedule_heads,
        units,
        input,
        pid,
        bytes,
    ) {
        Err(refusal) => Pushed {
            answer: PushAnswer::Refused(refusal),
            eit,
        },
        Ok(a) => {
            eit_carry::push_whole(eit, heads, slots, cells, schedule_heads, units, bytes, a)
        }
    }
}

// Every set and every schedule leaves. The counts of evictions and the clock stay.
pub fn clear(
    eit: Eit,
    heads: &[u64],
    slots: &[u32],
    cells: &[u8],
    schedule_heads: &[u64],
    units: &[u32],
) -> Turned
    ensures { turned result heads.now slots.now cells.now schedule_heads.now units.now ≡ cleared_of (store eit heads.now slots.now cells.now schedule_heads.now units.now) }
{
    if eit_state::is_whole(eit, heads, slots, cells, schedule_heads, units) {
        if eit_pids::any_row_without_pid(eit, heads, schedule_heads) {
            return Turned {
                answer: Err(Refusal::NoPid),
                eit,
            };
        }
        return eit_state::cleared(eit, true);
    }
    eit_state::cleared(eit, false)
}

// The sets and the schedules that match the filter leave. The order of the others stays, and so do the counts of evictions and the clock.
pub fn drop(
    eit: Eit,
    heads: &mut [u64],
    slots: &mut [u32],
    cells: &[u8],
    schedule_heads: &mut [u64],
    units: &mut [u32],
    filter: Filter,
) -> Turned
    ensures { turned result heads.new slots.new cells.now schedule_heads.new units.new ≡ dropped_of (store eit heads.old slots.old cells.now schedule_heads.old units.old) filter }
{
    match eit_admit::admit_filter(eit, heads, slots, cells, schedule_heads, units, filter) {
        Err(refusal) => Turned {
            answer: Err(refusal),
            eit,
        },
        Ok(f) => {
            let then = eit_drop::drop_matching(eit, heads, slots, schedule_heads, units, f);
            Turned {
                answer: Ok(()),
                eit: then,
            }
        }
    }
}

// Has the set in a row another section? The first filled slot at or after `from`: its number, and where its bytes are in the cells.
pub fn next_section(
    eit: Eit,
    heads: &[u64],
    slots: &[u32],
    cells: &[u8],
    schedule_heads: &[u64],
    units: &[u32],
    row: usize,
    from: usize,
) -> Next
    ensures { result ≡ next_of (store eit heads.now slots.now cells.now schedule_heads.now units.now) row from }
{
    let sets = eit.sets;
    if eit_state::is_whole(eit, heads, slots, cells, schedule_heads, units) {
        if eit_pids::any_row_without_pid(eit, heads, schedule_heads) {
            return readers::no_section(Err(Refusal::NoPid));
        }
        return eit_next::in_row(heads, slots, sets.used, sets.size, row, from);
    }
    readers::no_section(Err(Refusal::NotWhole))
}

// Has that table of the schedule in a row another section? Tables count from the first of the kind, 0x50 or 0x60, on.
pub fn next_in_schedule(
    eit: Eit,
    heads: &[u64],
    slots: &[u32],
    cells: &[u8],
    schedule_heads: &[u64],
    units: &[u32],
    row: usize,
    table: usize,
    from: usize,
) -> Next
    ensures { result ≡ next_in_of (store eit heads.now slots.now cells.now schedule_heads.now units.now) row table from }
{
    let sets = eit.sets;
    if eit_state::is_whole(eit, heads, slots, cells, schedule_heads, units) {
        if eit_pids::any_row_without_pid(eit, heads, schedule_heads) {
            return readers::no_section(Err(Refusal::NoPid));
        }
        return eit_next::in_schedule(
            schedule_heads,
            units,
            eit.schedules,
            sets.size,
            row,
            table,
            from,
        );
    }
    readers::no_section(Err(Refusal::NotWhole))
}
