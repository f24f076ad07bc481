// What `examples_run` prints of what is handed out: the lines, and the sections of a row read out one after another.
#![tactic(auto)]

use eit_state::{Eit, PushAnswer};
use std::io;
use std::io::Write;
use store::Sets;

pub mod lines;
mod reading;

// Each section of the set in a row.
pub fn read_set<'a>(
    stdout: &mut impl Write,
    sets: Sets,
    heads: &[u64],
    slots: &'a [u32],
    cells: &'a [u8],
    row: usize,
) -> io::Result<()> {
    reading::read_row(
        stdout,
        cells,
        reader_rows::set_slots(sets, heads, slots, cells, row),
        sets.size,
    )
}

// The row of the set that goes out; a row past all others where none does.
fn set_row(out: PushAnswer) -> usize {
    if let PushAnswer::Set(row) = out {
        return row;
    }
    usize::MAX
}

// The same of a schedule.
fn schedule_row(out: PushAnswer) -> usize {
    if let PushAnswer::Schedule(row) = out {
        return row;
    }
    usize::MAX
}

// Each section of the set in a row.
fn read_eit_set<'a>(
    stdout: &mut impl Write,
    eit: Eit,
    heads: &[u64],
    slots: &'a [u32],
    cells: &'a [u8],
    schedule_heads: &[u64],
    units: &[u32],
    row: usize,
) -> io::Result<()> {
    let sets = eit.sets;
    reading::read_row(
        stdout,
        cells,
        reader_rows::eit_slots(eit, heads, slots, cells, schedule_heads, units, row),
        sets.size,
    )
}

// Each section of a table of the schedule in a row; tables are counted from the first of the kind.
fn read_table<'a>(
    stdout: &mut impl Write,
    eit: Eit,
    heads: &[u64],
    slots: &[u32],
    cells: &'a [u8],
    schedule_heads: &[u64],
    units: &'a [u32],
    row: usize,
    table: usize,
) -> io::Result<()> {
    let sets = eit.sets;
    reading::read_row(
        stdout,
        cells,
        reader_rows::table_slots(eit, heads, slots, cells, schedule_heads, units, row, table),
        sets.size,
    )
}

// Says the answer, and reads out what goes out; the examples' schedules have two tables.
pub fn read_out<'a>(
    stdout: &mut impl Write,
    out: PushAnswer,
    eit: Eit,
    heads: &[u64],
    slots: &'a [u32],
    cells: &'a [u8],
    schedule_heads: &[u64],
    units: &'a [u32],
) -> io::Result<()> {
    lines::say_line(stdout, b"eit ", out.number() as u64)?;
    let set = set_row(out);
    let schedule = schedule_row(out);
    read_eit_set(stdout, eit, heads, slots, cells, schedule_heads, units, set)?;
    read_table(
        stdout,
        eit,
        heads,
        slots,
        cells,
        schedule_heads,
        units,
        schedule,
        0,
    )?;
    read_table(
        stdout,
        eit,
        heads,
        slots,
        cells,
        schedule_heads,
        units,
        schedule,
        1,
    )
}
