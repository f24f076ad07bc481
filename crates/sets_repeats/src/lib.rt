// Sections that the set collector has already, at the start of a list: each tells 4 and touches its row, so that no key changes, and a column of tags that is made
// once finds the row of each. The first section that is anything else ends it. What is answered and left is that of pushing them one by one.
#![tactic(auto)]

ghost use Rattle.std.specs.Prelude.{◌≡◌, false, ◌+◌, ◌≤◌, length, IfSome};
ghost use Rattle.without_pid.specs.Pids.{without_pid};
ghost use Rattle.store.specs.Store.{store, Whole};
ghost use Rattle.arrivals.specs.Arrivals.{Numbered};
ghost use Rattle.log_list.specs.List.{given_at, WholeFrom};
ghost use Rattle.sets_repeats.specs.Repeats.{Searchable, Known, Repeat, RepeatGiven, Passed};

use log_list::{Place, Sections};
use placing::Place as Placed;
use rows::Entry;
use store::Sets;

// The settings and counts after them, and the place of the list where the next section begins.
#[derive(Clone, Copy)]
pub struct Repeats {
    pub sets: Sets,
    pub at: usize,
}

// The row of a section that arrived, where its push only touches that row; none where it does anything else.
fn row_known(
    sets: Sets,
    heads: &[u64],
    slots: &[u32],
    cells: &[u8],
    tags: &[u16],
    e: Entry,
    bytes: &[u8],
) -> Option<usize>
    requires searchable { Searchable sets heads.now slots.now cells.now tags.now }
    requires numbered { Numbered e }
    ensures { IfSome result (Known (store sets heads.now slots.now cells.now) e bytes.now) }
{
    if sets.size < bytes.len() {
        return None;
    }
    let i = columns::find(tags, heads, e.key, sets.used);
    if sets.used <= i {
        return None;
    }
    match placing::place_known(sets, heads, slots, cells, e, bytes, i) {
        Placed::Conflict(_) => None,
        Placed::Repeat(row) => {
            if sets_settle::goes_out(heads, slots, row) {
                return None;
            }
            Some(row)
        }
        Placed::Goes(_) => None,
    }
}

// The same of a section as it is offered.
fn row_repeated(
    sets: Sets,
    heads: &[u64],
    slots: &[u32],
    cells: &[u8],
    tags: &[u16],
    input: u8,
    pid: Option<u16>,
    bytes: &[u8],
) -> Option<usize>
    requires { Searchable sets heads.now slots.now cells.now tags.now }
    ensures { IfSome result (Repeat (store sets heads.now slots.now cells.now) input pid bytes.now) }
{
    if store::counters_full(sets) {
        return None;
    }
    match arrivals::set_arrival(input, pid, bytes) {
        Err(_) => None,
        Ok(entry) => row_known(sets, heads, slots, cells, tags, entry, bytes),
    }
}

// The same of the section of a list that a place tells of.
fn row_at(
    sets: Sets,
    heads: &[u64],
    slots: &[u32],
    cells: &[u8],
    tags: &[u16],
    list: &[u8],
    place: Place,
) -> Option<usize>
    requires searchable { Searchable sets heads.now slots.now cells.now tags.now }
    requires length_in_bounds { place.start + place.length ≤ length list.now }
    ensures { IfSome result (RepeatGiven (store sets heads.now slots.now cells.now) (given_at list.now place)) }
{
    let start = place.start;
    let end = start + place.length;
    row_repeated(
        sets,
        heads,
        slots,
        cells,
        tags,
        place.input,
        Some(place.pid),
        &list[start..end],
    )
}

// One section after another, as long as each only touches its row.
fn push_repeats(
    sets: Sets,
    heads: &mut [u64],
    slots: &[u32],
    cells: &[u8],
    tags: &[u16],
    list: &[u8],
) -> Repeats
    requires searchable { Searchable sets heads.old slots.now cells.now tags.now }
    requires whole_from { WholeFrom list.now 0 }
    ensures passed { Passed list.now (store sets heads.old slots.now cells.now) result.at (store result.sets heads.new slots.now cells.now) }
    ensures searchable_2 { Searchable result.sets heads.new slots.now cells.now tags.now }
    ensures whole_from_2 { WholeFrom list.now result.at }
{
    let mut held = sets;
    let mut at = 0;
    for place in Sections::new(list, 0) {
        let Some(i) = row_at(held, heads, slots, cells, tags, list, place) else {
            return Repeats { sets: held, at };
        };
        rows::touch(heads, i, held.clock + 1);
        held = store::risen(held);
        at = place.start + place.length;
    }
    Repeats { sets: held, at }
}

// The same with a column that is made here.
fn push_filled(
    sets: Sets,
    heads: &mut [u64],
    slots: &[u32],
    cells: &[u8],
    tags: &mut [u16],
    list: &[u8],
) -> Repeats
    requires whole { Whole sets heads.old slots.now cells.now }
    requires used_value { without_pid heads.old sets.used ≡ false }
    requires used_in_bounds { sets.used ≤ length tags.old }
    requires whole_from { WholeFrom list.now 0 }
    ensures passed { Passed list.now (store sets heads.old slots.now cells.now) result.at (store result.sets heads.new slots.now cells.now) }
    ensures whole_2 { Whole result.sets heads.new slots.now cells.now }
    ensures used_after { without_pid heads.new result.sets.used ≡ false }
    ensures whole_from_2 { WholeFrom list.now result.at }
{
    columns::fill(tags, heads, sets.used);
    push_repeats(sets, heads, slots, cells, tags, list)
}

// The sections at the start of a list that only touch their row; none where a column does not pay.
pub fn push_first(
    sets: Sets,
    heads: &mut [u64],
    slots: &[u32],
    cells: &[u8],
    list: &[u8],
) -> Repeats
    requires whole { Whole sets heads.old slots.now cells.now }
    requires used_value { without_pid heads.old sets.used ≡ false }
    requires whole_from { WholeFrom list.now 0 }
    ensures passed { Passed list.now (store sets heads.old slots.now cells.now) result.at (store result.sets heads.new slots.now cells.now) }
    ensures whole_2 { Whole result.sets heads.new slots.now cells.now }
    ensures used_after { without_pid heads.new result.sets.used ≡ false }
    ensures whole_from_2 { WholeFrom list.now result.at }
{
    if columns::pays(sets.used, list.len()) {
        let mut tags = columns::room();
        return push_filled(sets, heads, slots, cells, &mut tags, list);
    }
    Repeats { sets, at: 0 }
}
