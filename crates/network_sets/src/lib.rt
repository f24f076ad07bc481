// The entries of the sections of a row, one after another (docs/RULES.md, "Entries"). All sections are judged before anything is listed, so that 35 and 36 leave the list
// as it was.
#![tactic(auto)]

ghost use Rattle.std.specs.Prelude.{◌≡◌, ◌+◌, ◌*◌, ◌≤◌, ◌<◌, length};
ghost use Rattle.cells.specs.Cells.{cell_number};
ghost use Rattle.network_faults.specs.Faults.{judged_by};
ghost use Rattle.network_entries.specs.Entries.{listed_from};
ghost use Rattle.network_sets.specs.Sets.{read_number, read_of, nothing_read, ended_at, refused_as, said_of, SlotIn, SlotsIn, AllTaken, slot_fault, slots_fault, first_refused, slot_entries, slots_entries, slots_told};

use answers::Refusal;
use network_faults::Fault;
use rules_networks::Table;

// What a question for entries answers: there are some from the one asked for on, or none; a refusal; a table_id that is none of the reader's (35); a loop that does not end
// where its length says (36).
#[derive(Clone, Copy)]
pub enum ReadAnswer {
    Yes,
    No,
    Refused(Refusal),
    OtherTable,
    BrokenLoop,
}

impl ReadAnswer {
    pub fn number(self) -> u8
        ensures { result ≡ read_number self }
    {
        match self {
            ReadAnswer::Yes => 8,
            ReadAnswer::No => 9,
            ReadAnswer::Refused(refusal) => refusal.number(),
            ReadAnswer::OtherTable => 35,
            ReadAnswer::BrokenLoop => 36,
        }
    }
}

// How many entries there are; with 35 and 36 the section's number, and the place in it.
#[derive(Clone, Copy)]
pub struct Read {
    pub answer: ReadAnswer,
    pub count: usize,
    pub section: usize,
    pub place: usize,
}

// A section of a row that is refused, by its number, and why.
#[derive(Clone, Copy)]
pub struct RefusedSection {
    pub section: usize,
    pub fault: Fault,
}

fn read_of(answer: ReadAnswer, count: usize, section: usize, place: usize) -> Read
    ensures { result ≡ read_of answer count section place }
{
    Read {
        answer,
        count,
        section,
        place,
    }
}

// No entry is listed, and no section is told.
pub fn nothing(answer: ReadAnswer) -> Read
    ensures { result ≡ nothing_read answer }
{
    read_of(answer, 0, 0, 0)
}

// All is listed: are there entries past those that the list passes over?
pub fn ended(skip: usize, count: usize) -> Read
    ensures { result ≡ ended_at skip count }
{
    if skip < count {
        return read_of(ReadAnswer::Yes, count, 0, 0);
    }
    read_of(ReadAnswer::No, count, 0, 0)
}

// 35 at table_id, 36 at the place of what breaks a loop.
pub fn refused(section: usize, fault: Fault) -> Read
    ensures { result ≡ refused_as section fault }
{
    match fault {
        Fault::OtherTable => read_of(ReadAnswer::OtherTable, 0, section, 0),
        Fault::BrokenLoop(place) => read_of(ReadAnswer::BrokenLoop, 0, section, place),
    }
}

// Where the bytes of the section begin that a slot's word names.
fn start_of(w: u32, size: usize) -> usize
    requires { size ≤ 4096 }
    ensures { (result ≡ cell_number w * size) × (result < 4294836224) }
{
    cells::cell_number(w) * size
}

// Why the section that a slot's word names is refused, if it names one.
fn judge_slot(table: Table, w: u32, size: usize, cells: &[u8]) -> Result<(), Fault>
    requires { SlotIn (length cells.now) size w }
    ensures { result ≡ judged_by (slot_fault table cells.now size w) }
{
    if cells::is_filled(w) {
        let start = start_of(w, size);
        let end = start + cells::kept_length(w);
        return network_faults::judge(table, &cells[start..end]);
    }
    Ok(())
}

// The first section that is refused, by rising number.
fn judge_slots(table: Table, slots: &[u32], size: usize, cells: &[u8]) -> Result<(), RefusedSection>
    requires { SlotsIn (length cells.now) size slots.now }
    ensures { result ≡ first_refused (slots_fault table cells.now size slots.now 0) }
{
    for (j, w) in slots.iter().enumerate() {
        if let Err(fault) = judge_slot(table, *w, size, cells) {
            return Err(RefusedSection { section: j, fault });
        }
    }
    Ok(())
}

// The entries of the section that a slot's word names, if it names one, after k others; how many there are then.
fn list_slot(
    table: Table,
    w: u32,
    number: usize,
    size: usize,
    cells: &[u8],
    skip: usize,
    list: &mut [u32],
    k: usize,
) -> usize
    requires slot_in { SlotIn (length cells.now) size w }
    requires number_bound { (number < 256) × (k ≤ number * 65536) }
    requires w_value { slot_fault table cells.now size w ≡ 0 }
    ensures { ((result, list.new) ≡ listed_from skip k (slot_entries table cells.now size w number) list.old) × (result ≤ k + 65536) }
{
    if cells::is_filled(w) {
        let start = start_of(w, size);
        let kept = cells::kept_length(w);
        return network_entries::list_section(table, cells, start, kept, number, skip, list, k);
    }
    k
}

// The sections of the filled slots by rising number; how many entries they have.
fn list_slots(
    table: Table,
    slots: &[u32],
    size: usize,
    cells: &[u8],
    skip: usize,
    list: &mut [u32],
) -> usize
    requires slots_in { SlotsIn (length cells.now) size slots.now }
    requires all_taken { AllTaken table cells.now size slots.now }
    ensures { (result, list.new) ≡ listed_from skip 0 (slots_entries table cells.now size slots.now 0) list.old }
{
    let mut k = 0;
    for (j, w) in slots.iter().enumerate() {
        k = list_slot(table, *w, j, size, cells, skip, list, k);
    }
    k
}

// What is told of the sections of a row: the first that is refused decides.
pub fn read_slots(
    table: Table,
    slots: &[u32],
    size: usize,
    cells: &[u8],
    skip: usize,
    list: &mut [u32],
) -> Read
    requires { SlotsIn (length cells.now) size slots.now }
    ensures { (result, list.new) ≡ said_of skip (slots_told table cells.now size slots.now 0) list.old }
{
    if let Err(first) = judge_slots(table, slots, size, cells) {
        return refused(first.section, first.fault);
    }
    ended(skip, list_slots(table, slots, size, cells, skip, list))
}
