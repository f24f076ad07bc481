// The entries of networks, bouquets and services that go out, printed page by page.
#![tactic(auto)]

ghost use Rattle.std.specs.Prelude.{◌≡◌, ◌≤◌, length, IfErr};

use entry_lines::heads::Totals;
use entry_pages::{Page, count};
use network_sets::Read;
use rules_networks::Table;
use sets_settle::PushAnswer;
use std::io;
use std::io::Write;
use store::Sets;

// Which reader a run asks for: the one that a table_id has, or always this one.
#[derive(Clone, Copy)]
pub enum Asked {
    ByTable,
    Always(Table),
}

// The reader of a table_id (EN 300 468, table 2), where it has one.
fn reader_of(table_id: u64) -> Option<Table> {
    match table_id {
        0x40 | 0x41 => Some(Table::Nit),
        0x42 | 0x46 => Some(Table::Sdt),
        0x4A => Some(Table::Bat),
        _ => None,
    }
}

fn page_of(read: Read) -> Page {
    let answer = read.answer;
    Page {
        count: read.count,
        answer: answer.number(),
        section: read.section,
        place: read.place,
    }
}

// The line of a set that went out, and its entries.
fn say_set(
    stdout: &mut impl Write,
    table: Table,
    sets: Sets,
    heads: &[u64],
    slots: &[u32],
    cells: &[u8],
    row: usize,
    list: &mut [u32],
    totals: &mut Totals,
) -> io::Result<()>
    requires { length list.old ≡ 24576 }
{
    if row < heads.len() / rows::HEAD_WORDS {
        let key = rows::key_at(heads, row);
        let version = rows::version(heads, row);
        let last = rows::last(heads, row);
        entry_lines::heads::say_table_set(stdout, key, version, last)?;
    }
    entry_pages::say_pages(stdout, list, cells, totals, |skip, list| {
        page_of(networks::entries_of_set(table, sets, heads, slots, cells, row, skip, list))
    })
}

// The reader that is asked for, of the table in a row; a table without one is passed over.
fn asked_reader(asked: Asked, heads: &[u64], row: usize) -> Option<Table> {
    match asked {
        Asked::Always(table) => Some(table),
        Asked::ByTable => {
            if row < heads.len() / rows::HEAD_WORDS {
                let key = rows::key_at(heads, row);
                return reader_of(key.table_id);
            }
            None
        }
    }
}

// The set in a row that went out: every one counts, one with a reader is printed.
fn tell_set(
    stdout: &mut impl Write,
    asked: Asked,
    sets: Sets,
    heads: &[u64],
    slots: &[u32],
    cells: &[u8],
    row: usize,
    list: &mut [u32],
    totals: &mut Totals,
) -> io::Result<()>
    requires { length list.old ≡ 24576 }
    ensures { IfErr result (λ e. totals.new ≡ totals.old) }
{
    let mut told = *totals;
    count(&mut told.sets);
    if let Some(table) = asked_reader(asked, heads, row) {
        say_set(
            stdout, table, sets, heads, slots, cells, row, list, &mut told,
        )?;
    }
    *totals = told;
    Ok(())
}

// What a section led to. Where that cannot be written, the totals are as before.
pub fn tell(
    stdout: &mut impl Write,
    answer: PushAnswer,
    asked: Asked,
    sets: Sets,
    heads: &[u64],
    slots: &[u32],
    cells: &[u8],
    list: &mut [u32],
    pid: u16,
    section: &[u8],
    totals: &mut Totals,
) -> io::Result<()>
    requires { (length list.old ≡ 24576) × (3 ≤ length section.now) }
    ensures { IfErr result (λ e. totals.new ≡ totals.old) }
{
    match answer {
        PushAnswer::Nothing => Ok(()),
        PushAnswer::Set(row) => tell_set(
            stdout, asked, sets, heads, slots, cells, row, list, totals,
        ),
        PushAnswer::Refused(refusal) => {
            entry_pages::tell_refused(stdout, refusal, pid, section, totals)
        }
    }
}
