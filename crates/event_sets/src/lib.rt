// The events of sets and schedules that go out, printed page by page.
#![tactic(auto)]

ghost use Rattle.std.specs.Prelude.{◌≡◌, ◌*◌, ◌≤◌, ◌<◌, length, IfErr};

use eit_state::{Eit, PushAnswer};
use entry_lines::heads::Totals;
use entry_pages::{Page, count};
use shown_sections::Shown;
use std::io;
use std::io::Write;

fn page_of(shown: Shown) -> Page {
    let answer = shown.answer;
    Page {
        count: shown.count,
        answer: answer.number(),
        section: shown.section,
        place: shown.place,
    }
}

// The line of a set that went out.
fn say_set(stdout: &mut impl Write, heads: &[u64], row: usize) -> io::Result<()> {
    if row < heads.len() / rows::HEAD_WORDS {
        let key = rows::key_at(heads, row);
        let version = rows::version(heads, row);
        let last = rows::last(heads, row);
        entry_lines::heads::say_set(stdout, key, version, last)?;
    }
    Ok(())
}

// The line of a schedule that went out, and its first table_id; how many tables it has.
fn say_schedule(stdout: &mut impl Write, schedule_heads: &[u64], row: usize) -> io::Result<usize> {
    if row < schedule_heads.len() / rows::HEAD_WORDS {
        let key = rows::key_at(schedule_heads, row);
        let last = rows::last(schedule_heads, row);
        let first = units::first_table(key.table_id);
        entry_lines::heads::say_schedule(stdout, key, first, last)?;
        return Ok(schedules::tables_of(schedule_heads, row));
    }
    Ok(0)
}

// The line of a table of a schedule.
fn say_table(
    stdout: &mut impl Write,
    schedule_heads: &[u64],
    units: &[u32],
    row: usize,
    table: usize,
) -> io::Result<()> {
    if row < schedule_heads.len() / rows::HEAD_WORDS {
        if row < units.len() / schedules::SCHEDULE_WORDS {
            if table < schedules::TABLES {
                let key = rows::key_at(schedule_heads, row);
                let u = row * schedules::TABLES + table;
                let version = segments::word(units, u, 1);
                let last = segments::word(units, u, 2);
                entry_lines::heads::say_table(
                    stdout,
                    units::first_table(key.table_id) + table as u64,
                    version,
                    last,
                )?;
            }
        }
    }
    Ok(())
}

// The events of the set in a row that went out.
pub fn tell_set(
    stdout: &mut impl Write,
    eit: Eit,
    heads: &[u64],
    slots: &[u32],
    cells: &[u8],
    schedule_heads: &[u64],
    units: &[u32],
    row: usize,
    list: &mut [u32],
    totals: &mut Totals,
) -> io::Result<()>
    requires { length list.old ≡ 24576 }
    ensures { IfErr result (λ e. totals.new ≡ totals.old) }
{
    say_set(stdout, heads, row)?;
    let mut told = *totals;
    entry_pages::say_pages(stdout, list, cells, &mut told, |skip, list| {
        page_of(showing::events_of_set(
            eit,
            heads,
            slots,
            cells,
            schedule_heads,
            units,
            row,
            skip,
            list,
        ))
    })?;
    count(&mut told.sets);
    *totals = told;
    Ok(())
}

// The events of the schedule in a row that went out, table by table.
pub fn tell_schedule(
    stdout: &mut impl Write,
    eit: Eit,
    heads: &[u64],
    slots: &[u32],
    cells: &[u8],
    schedule_heads: &[u64],
    units: &[u32],
    row: usize,
    list: &mut [u32],
    totals: &mut Totals,
) -> io::Result<()>
    requires { length list.old ≡ 24576 }
    ensures { IfErr result (λ e. totals.new ≡ totals.old) }
{
    let tables = say_schedule(stdout, schedule_heads, row)?;
    let mut told = *totals;
    count(&mut told.schedules);
    for table in 0..tables {
        say_table(stdout, schedule_heads, units, row, table)?;
        entry_pages::say_pages(stdout, list, cells, &mut told, |skip, list| {
            page_of(showing::events_of_table(
                eit,
                heads,
                slots,
                cells,
                schedule_heads,
                units,
                row,
                table,
                skip,
                list,
            ))
        })?;
    }
    *totals = told;
    Ok(())
}

// What a section led to. Where that cannot be written, the totals are as before.
pub fn tell(
    stdout: &mut impl Write,
    answer: PushAnswer,
    eit: Eit,
    heads: &[u64],
    slots: &[u32],
    cells: &[u8],
    schedule_heads: &[u64],
    units: &[u32],
    list: &mut [u32],
    pid: u16,
    section: &[u8],
    totals: &mut Totals,
) -> io::Result<()>
    requires { (length list.old ≡ 24576) × (3 ≤ length section.now) }
    ensures { IfErr result (λ e. totals.new ≡ totals.old) }
{
    match answer {
        PushAnswer::Nothing => Ok(()),
        PushAnswer::Set(row) => tell_set(
            stdout,
            eit,
            heads,
            slots,
            cells,
            schedule_heads,
            units,
            row,
            list,
            totals,
        ),
        PushAnswer::Schedule(row) => tell_schedule(
            stdout,
            eit,
            heads,
            slots,
            cells,
            schedule_heads,
            units,
            row,
            list,
            totals,
        ),
        PushAnswer::Refused(refusal) => entry_pages::tell_refused(
            stdout, refusal, pid, section, totals,
        ),
    }
}
