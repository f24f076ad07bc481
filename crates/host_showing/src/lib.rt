// The readers of events for a host in another language: an EIT section, a set that was handed out, a table of a schedule that was handed out, entry by entry into a
// lent list; and the calendar date of a day. Every content of what is lent has one answer.
#![tactic(auto)]

ghost use Rattle.std.specs.Prelude.{◌≡◌};
ghost use Rattle.host_words.specs.Answers.{words};
ghost use Rattle.host_showing.specs.Calls.{tells_listed, listing, section_listed, set_listed, table_listed, date_word, date_number};

use shown_sections::Shown;
use times::{Calendar, Day};

// The numbers of the refusals that tell nothing: a store that is not whole, one in which a row has no PID, and what is no section.
const NOT_WHOLE: u8 = 10;

const NO_PID: u8 = 41;

const MALFORMED: u8 = 14;

// Writes how many entries there are, and the section and the place in it where the listing ended early; gives the answer's number. 10, 41 and 14 leave the words.
fn write_listed(listed: &mut [u64; 3], shown: Shown) -> u8
    ensures { words result listed.new ≡ tells_listed shown listed.old }
{
    let answer = shown.answer;
    let number = answer.number();
    if (number == NOT_WHOLE) | (number == NO_PID) | (number == MALFORMED) {
        return number;
    }
    *listed = [shown.count as u64, shown.section as u64, shown.place as u64];
    number
}

// The events of a section: 8, 9, 14, 18, 19 or 32. The list shows entries from `skip` on as far as there is room.
pub fn events(section: &[u8], skip: u64, list: &mut [u32], listed: &mut [u64; 3]) -> u8
    ensures { listing result listed.new list.new ≡ section_listed section.now skip list.old listed.old }
{
    let shown = showing::events(section, skip as usize, list);
    write_listed(listed, shown)
}

// The events of the set in a row: 8, 9, 10, 18, 19, 32 or 41.
pub fn eit_events(
    eit: &[u64; 8],
    heads: &[u64],
    slots: &[u32],
    cells: &[u8],
    schedule_heads: &[u64],
    units: &[u32],
    row: u64,
    skip: u64,
    list: &mut [u32],
    listed: &mut [u64; 3],
) -> u8
    ensures { listing result listed.new list.new ≡ set_listed eit.now heads.now slots.now cells.now schedule_heads.now units.now row skip list.old listed.old }
{
    let collector = host_eit_words::eit(eit);
    let shown = showing::events_of_set(
        collector,
        heads,
        slots,
        cells,
        schedule_heads,
        units,
        row as usize,
        skip as usize,
        list,
    );
    write_listed(listed, shown)
}

// The same of a table of the schedule in a row. Tables count from the first of the kind, 0x50 or 0x60, on.
pub fn eit_events_in_schedule(
    eit: &[u64; 8],
    heads: &[u64],
    slots: &[u32],
    cells: &[u8],
    schedule_heads: &[u64],
    units: &[u32],
    row: u64,
    table: u64,
    skip: u64,
    list: &mut [u32],
    listed: &mut [u64; 3],
) -> u8
    ensures { listing result listed.new list.new ≡ table_listed eit.now heads.now slots.now cells.now schedule_heads.now units.now row table skip list.old listed.old }
{
    let collector = host_eit_words::eit(eit);
    let shown = showing::events_of_table(
        collector,
        heads,
        slots,
        cells,
        schedule_heads,
        units,
        row as usize,
        table as usize,
        skip as usize,
        list,
    );
    write_listed(listed, shown)
}

// A date in eight decimal digits, year, month and day; 0 where there is none.
fn date_word(date: Option<Calendar>) -> u32
    ensures { result ≡ date_word date }
{
    match date {
        Some(c) => c.year as u32 * 10000 + c.month as u32 * 100 + c.day as u32,
        None => 0,
    }
}

// The calendar date of a modified Julian day: 19931013 for 49273; 0 for a day before 1900-03-01 and for a number above 65535, which is no day.
pub fn date(day: u32) -> u32
    ensures { result ≡ date_number day }
{
    if 65535 < day {
        return 0;
    }
    date_word(times::date_of(Day(day as u16)))
}
