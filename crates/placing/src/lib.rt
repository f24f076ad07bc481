// Where a section goes among the rows of a collector: it is in its slot already, it conflicts with what is there, or it is kept, and then in
// which row. Nothing is written, and no cell is looked for: the set collector and the EIT collector differ in what else names cells.
#![tactic(auto)]

ghost use Rattle.std.specs.Prelude.{◌≡◌, true, ◌<◌};
ghost use Rattle.cells.specs.Cells.{slot_whole};
ghost use Rattle.rows.specs.Rows.{room_in, room_renewed};
ghost use Rattle.arrivals.specs.Arrivals.{Numbered};
ghost use Rattle.store.specs.Store.{store, Whole};
ghost use Rattle.placing.specs.Places.{place_slot, place_known, place_of};

use rows::{Entry, Room};
use store::Sets;

#[derive(Clone, Copy)]
pub enum Place {
    Conflict(usize),
    Repeat(usize),
    Goes(Room),
}

// Row i as it is.
pub fn room_in(used: usize, evictions: u64, i: usize) -> Room
    ensures { result ≡ room_in used evictions i }
{
    Room {
        row: i,
        fresh: false,
        used,
        evictions,
    }
}

// Row i begun anew.
pub fn room_renewed(used: usize, evictions: u64, i: usize) -> Room
    ensures { result ≡ room_renewed used evictions i }
{
    Room {
        row: i,
        fresh: true,
        used,
        evictions,
    }
}

// Row i has the section's key, version and last number, and the section's slot the word w.
fn place_slot(
    sets: Sets,
    heads: &[u64],
    slots: &[u32],
    cells: &[u8],
    bytes: &[u8],
    i: usize,
    w: u32,
) -> Place
    requires whole { Whole sets heads.now slots.now cells.now }
    requires w_value { slot_whole sets.count sets.size w ≡ true }
    ensures { result ≡ place_slot (store sets heads.now slots.now cells.now) bytes.now i w }
{
    let n = cells::kept_length(w);
    let at = cells::cell_number(w) * sets.size;
    if n == 0 {
        return Place::Goes(room_in(sets.used, sets.evictions, i));
    }
    if cells::same_bytes(&cells[at..at + n], bytes) {
        Place::Repeat(i)
    } else {
        Place::Conflict(i)
    }
}

// Where the section goes, of which row i has the key.
pub fn place_known(
    sets: Sets,
    heads: &[u64],
    slots: &[u32],
    cells: &[u8],
    e: Entry,
    bytes: &[u8],
    i: usize,
) -> Place
    requires whole { Whole sets heads.now slots.now cells.now }
    requires numbered { Numbered e }
    requires i_lt_used { i < sets.used }
    ensures { result ≡ place_known (store sets heads.now slots.now cells.now) e bytes.now i }
{
    let same = (rows::version(heads, i) == e.version) & (rows::last(heads, i) == e.last);
    if same {
        let w = rows::slot(slots, i, e.number);
        place_slot(sets, heads, slots, cells, bytes, i, w)
    } else {
        Place::Goes(room_renewed(sets.used, sets.evictions, i))
    }
}

// Where the section of that entry and those bytes goes.
pub fn place_section(
    sets: Sets,
    heads: &[u64],
    slots: &[u32],
    cells: &[u8],
    e: Entry,
    bytes: &[u8],
) -> Place
    requires whole { Whole sets heads.now slots.now cells.now }
    requires numbered { Numbered e }
    requires limit_nonzero { (0 < sets.limit) × (sets.evictions < 18446744073709551615) }
    ensures { result ≡ place_of (store sets heads.now slots.now cells.now) e bytes.now }
{
    let i = rows::find(heads, e.key, sets.used);
    if i < sets.used {
        place_known(sets, heads, slots, cells, e, bytes, i)
    } else {
        Place::Goes(rows::room_new(heads, sets.limit, sets.used, sets.evictions))
    }
}
