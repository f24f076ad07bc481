// PATs in several sections (docs/RULES.md, "Watched PIDs"; ISO/IEC 13818-1, 2.4.4.3): the sections of a PAT are collected as a set, and only a
// complete one is followed. The record of a watch is three lent slices: words, whose first 384 are the three sets of PIDs (crate watched), then the
// counts and the head of the PAT store; the slots of its one row; its 256 cells of 1,024 bytes.
#![tactic(auto)]

ghost use Rattle.std.specs.Prelude.{◌≡◌, true, ◌&&◌, map, ◌≤◌, leb, length, get_or};
ghost use Rattle.cells.specs.Cells.{kept, slot_whole, all_whole};
ghost use Rattle.pat.specs.Pat.{with_programs};
ghost use Rattle.rows.specs.Rows.{rows_whole};
ghost use Rattle.watched.specs.Store.{following};
ghost use Rattle.sets_settle.specs.Settle.{answer_of};
ghost use Rattle.sets_push.specs.Pushing.{whole_pushed};
ghost use Rattle.pats.specs.Store.{record_of, pat_clock, pat_sets, pat_head, pat_store, room_for, pats_whole, pats_full, begun_words, enters, with_all, programs_of_row};
ghost use Rattle.pats.specs.Store.{pushed_by, pushed_in, watch_after, followed_in, entered_in, PatsReady, Arrives, Pushed, HasRow};

use rows::Entry;
use sets_settle::PushAnswer;
use store::Sets;

// How many words, slots and bytes the host lends.
pub const WORDS: usize = 398;

pub const SLOTS: usize = 288;

pub const CELLS: usize = 262_144;

// Words of the PAT store: its rows in use, 0 or 1; its evictions; the head of its row, up to the last word.
const USED: usize = 384;

const EVICTIONS: usize = 385;

const HEAD: usize = 386;

// The tick in that head.
const TICK: usize = 395;

// The PAT store's cells: as long as a PAT section may be, one for each section_number.
const SIZE: usize = 1024;

const COUNT: usize = 256;

// Whether slices of these lengths are long enough.
pub fn has_room(words: usize, slots: usize, cells: usize) -> bool
    ensures { result ≡ room_for words slots cells }
{
    (WORDS <= words) & (SLOTS <= slots) & (CELLS <= cells)
}

// No row, or one whose slots are all whole. Of a collector any number of rows is looked at; here, where every packet asks, one at most.
fn row_whole(words: &[u64], slots: &[u32]) -> bool
    requires { (398 ≤ length words.now) × (288 ≤ length slots.now) }
    ensures { result ≡ (leb (get_or words.now 384 0) 1 && rows_whole (pat_head words.now) slots.now 256 1024 (get_or words.now 384 0)) }
{
    let used = words[USED];
    if used == 0 {
        return true;
    }
    if used == 1 {
        return rows::row_whole(&words[HEAD..WORDS], slots, COUNT as u16, SIZE as u16, 0);
    }
    false
}

// Whether the slices are long enough and the PAT store is whole: if not, a call answers 10.
pub fn is_whole(words: &[u64], slots: &[u32], cells: &[u8]) -> bool
    ensures { result ≡ pats_whole (record_of words.now slots.now cells.now) }
{
    if has_room(words.len(), slots.len(), cells.len()) {
        return row_whole(words, slots);
    }
    false
}

// Whether the evictions or the clock of the PAT store are at their end: a call answers 11.
pub fn is_full(words: &[u64]) -> bool
    requires { 398 ≤ length words.now }
    ensures { result ≡ pats_full words.now }
{
    store::counters_full(pat_sets(words))
}

// Opens the PAT store: no row, no eviction. Its head, its slots and its cells are not written.
pub fn begin(words: &mut [u64])
    requires { 398 ≤ length words.old }
    ensures { words.new ≡ begun_words words.old }
{
    words[USED] = 0;
    words[EVICTIONS] = 0;
}

// A sound section of PID 0 on an input. Where it is a current PAT it is collected, and the PAT that it completes is followed.
pub fn enter(words: &mut [u64], slots: &mut [u32], cells: &mut [u8], input: u8, section: &[u8])
    requires { PatsReady (record_of words.old slots.old cells.old) }
    ensures { record_of words.new slots.new cells.new ≡ entered_in (record_of words.old slots.old cells.old) input section.now }
{
    if may_enter(section) {
        match arrivals::set_arrival(input, Some(0), section) {
            Err(_) => {}
            Ok(e) => collect(words, slots, cells, e, section),
        }
    }
}

// The clock of the PAT store: it has one row at most, so that is the row's tick. 0 where there is no row.
pub fn clock_of(words: &[u64]) -> u64
    requires { 398 ≤ length words.now }
    ensures { result ≡ pat_clock words.now }
{
    if words[USED] == 0 {
        return 0;
    }
    words[TICK]
}

// The settings and counts of the PAT store.
fn pat_sets(words: &[u64]) -> Sets
    requires { 398 ≤ length words.now }
    ensures { result ≡ pat_sets words.now }
{
    Sets {
        limit: 1,
        size: SIZE,
        count: COUNT,
        used: words[USED] as usize,
        evictions: words[EVICTIONS],
        clock: clock_of(words),
    }
}

// Whether the section is a PAT, is marked current and is no longer than a PAT section may be.
fn may_enter(section: &[u8]) -> bool
    ensures { result ≡ enters section.now }
{
    if pat::is_readable(section) {
        return (section[5] % 2 == 1) & (section.len() <= SIZE);
    }
    false
}

// A section that arrived is collected, and what it completes is followed.
fn collect(words: &mut [u64], slots: &mut [u32], cells: &mut [u8], e: Entry, section: &[u8])
    requires pats_ready { PatsReady (record_of words.old slots.old cells.old) }
    requires arrives { Arrives section.now e }
    ensures { record_of words.new slots.new cells.new ≡ followed_in (pushed_in (record_of words.old slots.old cells.old) (whole_pushed (pat_store (record_of words.old slots.old cells.old)) e section.now)) }
{
    let answer = push(words, slots, cells, e, section);
    follow(words, slots, cells, answer);
}

// A section that arrived is pushed into the PAT store.
fn push(
    words: &mut [u64],
    slots: &mut [u32],
    cells: &mut [u8],
    e: Entry,
    section: &[u8],
) -> PushAnswer
    requires pats_ready { PatsReady (record_of words.old slots.old cells.old) }
    requires arrives { Arrives section.now e }
    ensures cells_after { pushed_by result words.new slots.new cells.new ≡ pushed_in (record_of words.old slots.old cells.old) (whole_pushed (pat_store (record_of words.old slots.old cells.old)) e section.now) }
    ensures pushed { Pushed result (record_of words.new slots.new cells.new) }
{
    let sets = pat_sets(words);
    let pushed = sets_push::push_whole(sets, &mut words[HEAD..WORDS], slots, cells, e, section);
    let then = pushed.sets;
    words[USED] = then.used as u64;
    words[EVICTIONS] = then.evictions;
    pushed.answer
}

// A PAT that goes out replaces the PIDs of the last one; any other answer changes no set of PIDs.
fn follow(words: &mut [u64], slots: &[u32], cells: &[u8], answer: PushAnswer)
    requires { Pushed answer (record_of words.old slots.now cells.now) }
    ensures { words.new ≡ watch_after (answer_of answer (pat_store (record_of words.old slots.now cells.now))) words.old }
{
    match answer {
        PushAnswer::Nothing => {}
        PushAnswer::Set(_) => follow_row(words, slots, cells),
        PushAnswer::Refused(_) => {}
    }
}

// Follows the PAT whose sections are kept.
fn follow_row(words: &mut [u64], slots: &[u32], cells: &[u8])
    requires { HasRow (record_of words.old slots.now cells.now) }
    ensures { words.new ≡ following words.old (programs_of_row (pat_store (record_of words.old slots.now cells.now))) }
{
    let mut n = [0u64; 128];
    let row = rows::row_slots(&words[HEAD..WORDS], slots, 0);
    add_programs(&mut n, row, cells);
    watched::inner::follow(words, &n);
}

// Adds the PIDs of the programs of each section that a row's slots name.
fn add_programs(n: &mut [u64; 128], row: &[u32], cells: &[u8])
    requires row_value { all_whole 256 1024 row.now ≡ true }
    requires in_bounds { 262144 ≤ length cells.now }
    ensures { n.new ≡ with_all (map (kept cells.now 1024) row.now) n.old }
{
    for w in row {
        add_section(n, *w, cells);
    }
}

// Adds the PIDs of the programs of the section that a slot names.
fn add_section(n: &mut [u64; 128], w: u32, cells: &[u8])
    requires w_value { slot_whole 256 1024 w ≡ true }
    requires in_bounds { 262144 ≤ length cells.now }
    ensures { n.new ≡ with_programs (kept cells.now 1024 w) n.old }
{
    let at = cells::cell_number(w) * SIZE;
    pat::programs(cells::part(cells, at, cells::kept_length(w)), n);
}
