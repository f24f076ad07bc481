// The sections at the start of a list that are there already and only make their sets the newest, for a call over many sections (docs/RULES.md, "Collectors"): their
// rows are found by a column of tags that is made once, and of the lent memory the heads alone are written. Answer and memory are those of pushing them one by one.
#![tactic(auto)]

ghost use Rattle.std.specs.Prelude.{◌≡◌, ◌+◌, ◌≤◌, length, IfSome};
ghost use Rattle.arrivals.specs.Arrivals.{Numbered};
ghost use Rattle.store.specs.Store.{Whole};
ghost use Rattle.log_list.specs.List.{given_at, WholeFrom};
ghost use Rattle.eit_repeats.specs.Repeats.{Searchable, Known, Repeat, RepeatGiven, Passed};

use arrivals::Arrival;
use eit_becomes::Becomes;
use eit_state::Eit;
use log_list::{Place, Sections};
use placing::Place as Placed;
use store::Sets;

// The sections before `at` are pushed.
#[derive(Clone, Copy)]
pub struct Repeats {
    pub eit: Eit,
    pub at: usize,
}

// The row that a section which arrived only makes the newest; none where it does anything else.
fn row_known(
    sets: Sets,
    heads: &[u64],
    slots: &[u32],
    cells: &[u8],
    tags: &[u16],
    bytes: &[u8],
    a: Arrival,
) -> Option<usize>
    requires searchable { Searchable sets heads.now slots.now cells.now tags.now }
    requires numbered { Numbered a.entry }
    ensures { IfSome result (Known sets heads.now slots.now cells.now bytes.now a) }
{
    let used = sets.used;
    if sets.size < bytes.len() {
        return None;
    }
    let entry = a.entry;
    let i = columns::find(tags, heads, entry.key, used);
    if used <= i {
        return None;
    }
    match placing::place_known(sets, heads, slots, cells, entry, bytes, i) {
        Placed::Conflict(_) => None,
        Placed::Goes(_) => None,
        Placed::Repeat(row) => match eit_becomes::becomes_of(heads, slots, a, row) {
            Becomes::Stays => Some(row),
            Becomes::GoesOut => None,
            Becomes::OutOfRange => None,
            Becomes::Enters => None,
        },
    }
}

// So a section as it is offered.
fn row_repeated(
    eit: Eit,
    heads: &[u64],
    slots: &[u32],
    cells: &[u8],
    tags: &[u16],
    input: u8,
    pid: Option<u16>,
    bytes: &[u8],
) -> Option<usize>
    requires { Searchable eit.sets heads.now slots.now cells.now tags.now }
    ensures { IfSome result (Repeat eit heads.now slots.now cells.now input pid bytes.now) }
{
    if eit_state::counters_full(eit) {
        return None;
    }
    let sets = eit.sets;
    match arrivals::eit_arrival(input, pid, bytes) {
        Err(_) => None,
        Ok(a) => row_known(sets, heads, slots, cells, tags, bytes, a),
    }
}

// So the section of a list that a place tells of.
fn row_at(
    eit: Eit,
    heads: &[u64],
    slots: &[u32],
    cells: &[u8],
    tags: &[u16],
    list: &[u8],
    place: Place,
) -> Option<usize>
    requires searchable { Searchable eit.sets heads.now slots.now cells.now tags.now }
    requires length_in_bounds { place.start + place.length ≤ length list.now }
    ensures { IfSome result (RepeatGiven eit heads.now slots.now cells.now (given_at list.now place)) }
{
    let start = place.start;
    let end = start + place.length;
    row_repeated(
        eit,
        heads,
        slots,
        cells,
        tags,
        place.input,
        Some(place.pid),
        &list[start..end],
    )
}

// One section after another, until one does anything else.
fn push_repeats(
    eit: Eit,
    heads: &mut [u64],
    slots: &[u32],
    cells: &[u8],
    tags: &[u16],
    list: &[u8],
) -> Repeats
    requires searchable { Searchable eit.sets heads.old slots.now cells.now tags.now }
    requires whole_from { WholeFrom list.now 0 }
    ensures { Passed list.now slots.now cells.now eit heads.old result.eit heads.new result.at }
{
    let mut held = eit;
    let mut at = 0;
    for place in Sections::new(list, 0) {
        let Some(i) = row_at(held, heads, slots, cells, tags, list, place) else {
            return Repeats { eit: held, at };
        };
        held = eit_state::risen(held);
        let then = held.sets;
        rows::touch(heads, i, then.clock);
        at = place.start + place.length;
    }
    Repeats { eit: held, at }
}

// The same of a list from its start on, with a column that is made here; none where a column does not pay.
pub fn push_first(eit: Eit, heads: &mut [u64], slots: &[u32], cells: &[u8], list: &[u8]) -> Repeats
    requires whole { Whole eit.sets heads.old slots.now cells.now }
    requires whole_from { WholeFrom list.now 0 }
    ensures { Passed list.now slots.now cells.now eit heads.old result.eit heads.new result.at }
{
    let sets = eit.sets;
    let used = sets.used;
    if columns::pays(used, list.len()) {
        let mut tags = columns::room();
        columns::fill(&mut tags, heads, used);
        return push_repeats(eit, heads, slots, cells, &tags, list);
    }
    Repeats { eit, at: 0 }
}
