// The entries of an EIT section, and of the sections of a row one after another, listed (docs/RULES.md, "Entries"). A section stands somewhere in lent bytes, so that
// the place of an entry is one in them: the host reads a descriptor's bytes there.
#![tactic(auto)]

ghost use Rattle.std.specs.Prelude.{◌≡◌, ◌+◌, ◌*◌, ◌≤◌, ◌<◌, length};
ghost use Rattle.cells.specs.Cells.{kept_length, cell_number};
ghost use Rattle.shown_sections.specs.Shown.{show_number, goes_on, nothing_shown, ended_at, told_by, reached_by, From, Kept, HeldSlot, HeldSlots};
ghost use Rattle.shown_sections.specs.Shown.{shown_from, laid, section_show, good_show, slot_show, slots_show};

use answers::Refusal;
use listing::{Loop, Walked};

// What a question for entries answers: there are some from the one asked for on, or none; a refusal; or a descriptor runs past its loop (32).
#[derive(Clone, Copy)]
pub enum ShowAnswer {
    Yes,
    No,
    Refused(Refusal),
    Past,
}

impl ShowAnswer {
    pub fn number(self) -> u8
        ensures { result ≡ show_number self }
    {
        match self {
            ShowAnswer::Yes => 8,
            ShowAnswer::No => 9,
            ShowAnswer::Refused(refusal) => refusal.number(),
            ShowAnswer::Past => 32,
        }
    }
}

// How many entries there are; where the listing ended early (18, 19, 32), the section's number and the place in it.
#[derive(Clone, Copy)]
pub struct Shown {
    pub answer: ShowAnswer,
    pub count: usize,
    pub section: usize,
    pub place: usize,
}

// No entry is listed, and no section is told.
pub fn nothing(answer: ShowAnswer) -> Shown
    ensures { result ≡ nothing_shown answer }
{
    Shown {
        answer,
        count: 0,
        section: 0,
        place: 0,
    }
}

fn shown_as(answer: ShowAnswer, count: usize, section: usize, place: usize) -> Shown
    ensures { result ≡ record { answer = answer; count = count; section = section; place = place } }
{
    Shown {
        answer,
        count,
        section,
        place,
    }
}

// Whether all was listed so far, so that the next section follows.
fn goes_on(answer: ShowAnswer) -> bool
    ensures { result ≡ goes_on answer }
{
    matches!(answer, ShowAnswer::Yes)
}

// All is listed: are there entries past those that the list passes over?
fn ended(skip: usize, count: usize) -> Shown
    ensures { result ≡ ended_at skip count }
{
    if skip < count {
        return shown_as(ShowAnswer::Yes, count, 0, 0);
    }
    shown_as(ShowAnswer::No, count, 0, 0)
}

// What is told at the end.
pub fn told(skip: usize, last: Shown) -> Shown
    ensures { result ≡ told_by skip last }
{
    if goes_on(last.answer) {
        return ended(skip, last.count);
    }
    last
}

// How the walk of a section ended that begins at `start`.
fn reached(walked: Walked, number: usize, start: usize) -> Shown
    requires { From start walked }
    ensures { result ≡ reached_by number start walked }
{
    match walked {
        Walked::Done(count) => shown_as(ShowAnswer::Yes, count, 0, 0),
        Walked::Past(at, count) => shown_as(ShowAnswer::Past, count, number, at - start),
    }
}

// The events of a section whose layout is an EIT's: from byte 14 to the CRC.
fn show_events(
    bytes: &[u8],
    start: usize,
    size: usize,
    number: usize,
    skip: usize,
    list: &mut [u32],
    k: usize,
) -> Shown
    requires kept { Kept (length bytes.now) start size number k }
    requires le_size { 18 ≤ size }
    ensures { (result, list.new) ≡ shown_from skip k (good_show bytes.now start size number) list.old }
{
    let of = Loop {
        header: entry_words::EVENT_HEADER,
        network: 0,
        number: number as u32,
        skip,
    };
    let end = start + size - 4;
    let walked = listing::entries(&bytes[0..end], of, start + 14, list, k);
    reached(walked, number, start)
}

// The section of `size` bytes from `start` on, with k entries before it: 18 and 19 first.
pub fn show_section(
    bytes: &[u8],
    start: usize,
    size: usize,
    number: usize,
    skip: usize,
    list: &mut [u32],
    k: usize,
) -> Shown
    requires { Kept (length bytes.now) start size number k }
    ensures { (result, list.new) ≡ shown_from skip k (section_show bytes.now start size number) list.old }
{
    match eit_section::read(&bytes[start..start + size]) {
        Err(refusal) => shown_as(ShowAnswer::Refused(refusal), k, number, 0),
        Ok(_) => show_events(bytes, start, size, number, skip, list, k),
    }
}

// The section that a slot's word names, if it names one.
fn show_slot(
    w: u32,
    number: usize,
    size: usize,
    cells: &[u8],
    skip: usize,
    list: &mut [u32],
    k: usize,
) -> Shown
    requires held_slot { HeldSlot (length cells.now) size w }
    requires number_bound { (number < 256) × (size ≤ 4096) × (k ≤ number * 65536) }
    ensures { ((result, list.new) ≡ shown_from skip k (slot_show cells.now size w number) list.old) × (result.count ≤ k + 65536) }
{
    if cells::is_filled(w) {
        let start = cells::cell_number(w) * size;
        return show_section(cells, start, cells::kept_length(w), number, skip, list, k);
    }
    shown_as(ShowAnswer::Yes, k, 0, 0)
}

// The sections of the filled slots by rising number, up to the first that ends the listing.
pub fn show_slots(slots: &[u32], size: usize, cells: &[u8], skip: usize, list: &mut [u32]) -> Shown
    requires held_slots { HeldSlots (length cells.now) size slots.now }
    requires slots_len_bound { (length slots.now ≤ 256) × (size ≤ 4096) }
    ensures { (result, list.new) ≡ laid skip (slots_show cells.now size slots.now 0) list.old }
{
    let mut k = 0;
    for (j, w) in slots.iter().enumerate() {
        let last = show_slot(*w, j, size, cells, skip, list, k);
        if !goes_on(last.answer) {
            return last;
        }
        k = last.count;
    }
    ended(skip, k)
}
