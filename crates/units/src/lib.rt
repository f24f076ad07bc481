// The copies of complete sets that schedules are made of: a unit of 288 words for each table. A copy is a copy of slot words: it names the same
// cells as the set did when it went in (docs/RULES.md, "Collectors" and "Cells").
#![tactic(auto)]

ghost use Rattle.std.specs.Prelude.{◌≡◌, Bool, true, false, cond, not, ◌&&◌, ℕ, ◌+◌, ◌-◌, ◌*◌, ◌%◌, ◌<◌, ◌≤◌, length};
ghost use Rattle.std.proofs.Math.Seq.{paste};
ghost use Rattle.units.specs.Units.{is_present, unit_slots, unit_whole, units_whole, marked_unit, marked_units, all_present, without_units};
ghost use Rattle.units.specs.Units.{with_words, with_set, first_table, with_table, with_complete, with_table_set, refilled};

use rows::Key;

// The words of a unit before its slots.
const PRESENT: usize = 0;

const UNIT_VERSION: usize = 1;

const UNIT_LAST: usize = 2;

fn wide_word(x: u32) -> u64
    ensures { result ≡ x }
{
    x as u64
}

// Whether unit u is present.
pub fn is_present(units: &[u32], u: usize) -> bool
    requires { u * 288 + 288 ≤ length units.now }
    ensures { result ≡ is_present units.now u }
{
    segments::word(units, u, PRESENT) != 0
}

// The slots of unit u.
pub fn unit_slots<'a>(units: &'a [u32], u: usize) -> &'a [u32]
    requires { u * 288 + 288 ≤ length units.now }
    ensures { result.now ≡ unit_slots units.now u }
{
    let n = rows::slot_count(wide_word(segments::word(units, u, UNIT_LAST)));
    let at = u * rows::ROW_WORDS + rows::SEGMENT_WORDS;
    &units[at..at + n]
}

// ---- all units in use

// Whether unit u has one slot, which is filled and whole; then it need not be asked whether it is present. One of which this is not so may
// still be whole.
pub fn single_whole(units: &[u32], count: u16, size: u16, u: usize) -> bool
    requires { (u * 288 + 288 ≤ length units.now) × (12 ≤ size) × (size ≤ 4096) }
    ensures { result ≡ true → unit_whole units.now count size u ≡ true }
{
    let last = segments::word(units, u, UNIT_LAST);
    let first = segments::word(units, u, rows::SEGMENT_WORDS);
    (last == 0) & cells::filled_whole(first, count, size)
}

// Whether unit u is not present, or each of its slots is whole.
fn unit_whole(units: &[u32], count: u16, size: u16, u: usize) -> bool
    requires { (u * 288 + 288 ≤ length units.now) × (12 ≤ size) × (size ≤ 4096) }
    ensures { result ≡ unit_whole units.now count size u }
{
    if single_whole(units, count, size, u) {
        return true;
    }
    if is_present(units, u) {
        return cells::all_whole(unit_slots(units, u), count, size);
    }
    true
}

// Whether the n units from `base` on are whole.
pub fn units_whole(units: &[u32], count: u16, size: u16, base: usize, n: usize) -> bool
    requires { ((base + n) * 288 ≤ length units.now) × (12 ≤ size) × (size ≤ 4096) }
    ensures { result ≡ units_whole units.now count size base n }
{
    let mut ok = true;
    for j in (0..n).rev() {
        ok &= unit_whole(units, count, size, base + j);
    }
    ok
}

// Adds each cell that a slot of unit u names.
fn mark_unit(map: &mut [u64; 1024], units: &[u32], u: usize)
    requires { u * 288 + 288 ≤ length units.now }
    ensures { map.new ≡ marked_unit units.now u map.old }
{
    if is_present(units, u) {
        cells::mark_all(map, unit_slots(units, u));
    }
}

// Adds each cell that a slot of the n units from `base` on names.
pub fn mark_units(map: &mut [u64; 1024], units: &[u32], base: usize, n: usize)
    requires { (base + n) * 288 ≤ length units.now }
    ensures { map.new ≡ marked_units units.now base n map.old }
{
    for j in (0..n).rev() {
        mark_unit(map, units, base + j);
    }
}

// ---- one schedule, whose units begin with the unit `base`

// Whether its first n tables are there.
pub fn all_present(units: &[u32], base: usize, n: usize) -> bool
    requires { (base + n) * 288 ≤ length units.now }
    ensures { result ≡ all_present units.now base n }
{
    let mut ok = true;
    for j in (0..n).rev() {
        ok &= is_present(units, base + j);
    }
    ok
}

// Its first n tables are there no longer.
pub fn empty_units(units: &mut [u32], base: usize, n: usize)
    requires { (base + n) * 288 ≤ length units.old }
    ensures { units.new ≡ without_units base n units.old }
{
    for j in (0..n).rev() {
        segments::put_word(units, base + j, PRESENT, 0);
    }
}

// The slots' words go in at `at`. By a loop, as `cells::keep` says.
fn put_slots(units: &mut [u32], at: usize, part: &[u32])
    requires { at + length part.now ≤ length units.old }
    ensures { units.new ≡ paste units.old at part.now (length part.now) }
{
    for k in 0..part.len() {
        units[at + k] = part[k];
    }
}

// Unit u is present, with that version and last_section_number.
fn put_unit_words(units: &mut [u32], u: usize, version: u32, last: u32)
    requires { u * 288 + 288 ≤ length units.old }
    ensures { units.new ≡ with_words u version last units.old }
{
    segments::put_word(units, u, PRESENT, 1);
    segments::put_word(units, u, UNIT_VERSION, version);
    segments::put_word(units, u, UNIT_LAST, last);
}

// The set of row i is put in as unit u. A head's version above 32 bits is no section's: its low bits go in.
pub fn put_set(units: &mut [u32], heads: &[u64], slots: &[u32], i: usize, u: usize)
    requires { (u * 288 + 288 ≤ length units.old) × (i * 12 + 12 ≤ length heads.now) × (i * 288 + 288 ≤ length slots.now) }
    ensures { units.new ≡ with_set heads.now slots.now i u units.old }
{
    let version = (rows::version(heads, i) % 4294967296) as u32;
    let part = rows::row_slots(heads, slots, i);
    put_slots(units, u * rows::ROW_WORDS + rows::SEGMENT_WORDS, part);
    put_unit_words(units, u, version, (part.len() - 1) as u32);
}

// ---- refill

// The first table_id of a schedule kind, by its number: 2 is schedule actual, 3 schedule other.
pub fn first_table(kind: u64) -> u64
    ensures { (result ≡ first_table kind) × (result ≤ 96) }
{
    if kind == 2 { 0x50 } else { 0x60 }
}

// The table_id j after the first of the kind.
fn table_of_kind(kind: u64, j: usize) -> u64
    requires { j < 16 }
    ensures { result ≡ first_table kind + j }
{
    first_table(kind) + j as u64
}

// The key with another word in the place of table_id.
pub fn with_table(key: Key, table_id: u64) -> Key
    ensures { result ≡ with_table key table_id }
{
    Key { table_id, ..key }
}

// Row i, where it is in use and complete, is put in as unit u.
fn put_complete(units: &mut [u32], heads: &[u64], slots: &[u32], used: usize, i: usize, u: usize)
    requires { (u * 288 + 288 ≤ length units.old) × (used * 12 ≤ length heads.now) × (used * 288 ≤ length slots.now) }
    ensures { units.new ≡ with_complete heads.now slots.now used i u units.old }
{
    if used <= i {
        return;
    }
    if segments::set_complete(heads, slots, i) {
        put_set(units, heads, slots, i, u);
    }
}

// The set of table j of the schedule, where it is complete, is put in, unless the table is `own`.
fn put_table(
    units: &mut [u32],
    heads: &[u64],
    slots: &[u32],
    used: usize,
    key: Key,
    own: u64,
    base: usize,
    j: usize,
)
    requires { ((base + j) * 288 + 288 ≤ length units.old) × (used * 12 ≤ length heads.now) × (used * 288 ≤ length slots.now) × (j < 16) }
    ensures { units.new ≡ with_table_set heads.now slots.now used key own base j units.old }
{
    let table = table_of_kind(key.table_id, j);
    if table == own {
        return;
    }
    let i = rows::find(heads, with_table(key, table), used);
    put_complete(units, heads, slots, used, i, base + j);
}

// Each complete set of the first n tables of the schedule, whose key is `key`, is put in, but the table `own`.
pub fn refill(
    units: &mut [u32],
    heads: &[u64],
    slots: &[u32],
    used: usize,
    key: Key,
    own: u64,
    base: usize,
    n: usize,
)
    requires { ((base + n) * 288 ≤ length units.old) × (used * 12 ≤ length heads.now) × (used * 288 ≤ length slots.now) × (n ≤ 16) }
    ensures { units.new ≡ refilled heads.now slots.now used key own base n units.old }
{
    for j in (0..n).rev() {
        put_table(units, heads, slots, used, key, own, base, j);
    }
}
