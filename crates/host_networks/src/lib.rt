// The readers of networks, bouquets and services for a host in another language: a NIT, BAT or SDT section, and a set that was handed out, entry by entry into a lent list.
// Every content of what is lent has one answer.
#![tactic(auto)]

ghost use Rattle.std.specs.Prelude.{◌≡◌};
ghost use Rattle.host_words.specs.Answers.{words};
ghost use Rattle.host_showing.specs.Calls.{listing};
ghost use Rattle.host_networks.specs.Calls.{reader_of, tells_read, section_read, set_read};

use network_sets::Read;
use rules_networks::Table;

// The numbers of the refusals that tell nothing: a store that is not whole, and one in which a row has no PID.
const NOT_WHOLE: u8 = 10;

const NO_PID: u8 = 41;

// The reader of a number: 1 networks', 2 bouquets', 3 services'; any other number names none.
fn reader_of(reader: u32) -> Table
    ensures { result ≡ reader_of reader }
{
    if reader == 1 {
        return Table::Nit;
    }
    if reader == 2 {
        return Table::Bat;
    }
    if reader == 3 {
        return Table::Sdt;
    }
    Table::None
}

// Writes how many entries there are, and with 35 and 36 the section and the place in it; gives the answer's number. 10 and 41 leave the words.
fn write_read(listed: &mut [u64; 3], read: Read) -> u8
    ensures { words result listed.new ≡ tells_read read listed.old }
{
    let answer = read.answer;
    let number = answer.number();
    if (number == NOT_WHOLE) | (number == NO_PID) {
        return number;
    }
    *listed = [read.count as u64, read.section as u64, read.place as u64];
    number
}

// The entries of a section: 8, 9, 35 or 36. The list shows entries from `skip` on as far as there is room; 35 and 36 leave it.
pub fn entries(
    reader: u32,
    section: &[u8],
    skip: u64,
    list: &mut [u32],
    listed: &mut [u64; 3],
) -> u8
    ensures { listing result listed.new list.new ≡ section_read reader section.now skip list.old listed.old }
{
    let table = reader_of(reader);
    let read = networks::entries(table, section, skip as usize, list);
    write_read(listed, read)
}

// The same of the set in a row that was handed out: 8, 9, 10, 35, 36 or 41.
pub fn sets_entries(
    reader: u32,
    sets: &[u64; 6],
    heads: &[u64],
    slots: &[u32],
    cells: &[u8],
    row: u64,
    skip: u64,
    list: &mut [u32],
    listed: &mut [u64; 3],
) -> u8
    ensures { listing result listed.new list.new ≡ set_read reader sets.now heads.now slots.now cells.now row skip list.old listed.old }
{
    let table = reader_of(reader);
    let collector = host_sets_words::sets(sets);
    let read = networks::entries_of_set(
        table,
        collector,
        heads,
        slots,
        cells,
        row as usize,
        skip as usize,
        list,
    );
    write_read(listed, read)
}
