// The sections of a row, one after another (docs/RULES.md, "Collectors"): where the next one's bytes are in the lent cells, and a reader that
// hands them out as parts of the cells. Shared by all collectors, which say which row's slots are looked at.
#![tactic(auto)]

ghost use Rattle.std.specs.Prelude.{◌≡◌, ◌≤◌};
ghost use Rattle.cells.specs.Cells.{next_filled, part_of};
ghost use Rattle.readers.specs.Next.{no_section, slot_told};
ghost use Rattle.readers.specs.Reader.{no_step, step_of, held, begun, moved_on};

use answers::Reply;

// A section: its number, and where its bytes are in the lent cells. All 0 where there is none.
#[derive(Clone, Copy)]
pub struct Next {
    pub answer: Reply,
    pub number: usize,
    pub start: usize,
    pub length: usize,
}

pub fn no_section(answer: Reply) -> Next
    ensures { result ≡ no_section answer }
{
    Next {
        answer,
        number: 0,
        start: 0,
        length: 0,
    }
}

// Slot j of a row's slots, where there is one.
fn told(slots: &[u32], size: usize, j: usize) -> Next
    requires { size ≤ 4096 }
    ensures { result ≡ slot_told size slots.now j }
{
    if j < slots.len() {
        let w = slots[j];
        return Next {
            answer: Ok(true),
            number: j,
            start: cells::cell_number(w) * size,
            length: cells::kept_length(w),
        };
    }
    no_section(Ok(false))
}

// The first filled slot at or after `from`.
pub fn next_slot(slots: &[u32], size: usize, from: usize) -> Next
    requires { size ≤ 4096 }
    ensures { result ≡ slot_told size slots.now (next_filled slots.now from) }
{
    if from < slots.len() {
        return told(slots, size, cells::next_filled(slots, from));
    }
    no_section(Ok(false))
}

// The bytes of a section, by what a question told of it: exactly the kept ones, or an empty part where the cells have not that many.
pub fn section_part<'a>(cells: &'a [u8], start: usize, length: usize) -> &'a [u8]
    ensures { result.now ≡ part_of cells.now start length }
{
    cells::part(cells, start, length)
}

// Where a reader finds the next section, and the slot behind it. Where there is none: no bytes, and the slot at which it stood.
#[derive(Clone, Copy)]
pub struct Step {
    pub start: usize,
    pub length: usize,
    pub next: usize,
}

fn no_step(from: usize) -> Step
    ensures { result ≡ no_step from }
{
    Step {
        start: 0,
        length: 0,
        next: from,
    }
}

// From slot `from` of a row's slots on. No cell is larger than 4,096 bytes.
pub fn step_from(row: &[u32], size: usize, from: usize) -> Step
    ensures { result ≡ step_of size row.now from }
{
    if 4096 < size {
        return no_step(from);
    }
    let found = next_slot(row, size, from);
    match found.answer {
        Ok(true) => Step {
            start: found.start,
            length: found.length,
            next: found.number + 1,
        },
        Ok(false) => no_step(from),
        Err(_) => no_step(from),
    }
}

// A reader over a complete set: the lent cells, the slot to look at next, and the section that it handed out last, which is a part of the cells and
// empty before the first section and behind the last.
#[derive(Drop)]
pub struct SetReader<'a> {
    pub cells: &'a [u8],
    pub next: usize,
    pub part: &'a [u8],
}

// A reader at the first slot.
pub fn reader<'a>(cells: &'a [u8]) -> SetReader<'a>
    ensures { held result ≡ begun cells.now }
{
    SetReader {
        cells,
        next: 0,
        part: section_part(cells, 0, 0),
    }
}

// The next section of a row, whose slots are given: the reader, moved on behind it, with its bytes; at the end with an empty part.
pub fn next_part<'a>(r: SetReader<'a>, row: &'a [u32], size: usize) -> SetReader<'a>
    ensures { held result ≡ moved_on size row.now (held r.entry) }
{
    let step = step_from(row, size, r.next);
    SetReader {
        cells: r.cells,
        next: step.next,
        part: section_part(r.cells, step.start, step.length),
    }
}
