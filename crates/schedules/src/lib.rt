// The rows of schedules: 12 words of a head each, whose table_id word is the kind and whose last word is last_table_id, and 16 units, one for
// each table of the kind. A complete set of a schedule kind goes into the schedule of its service, which is found or made.
#![tactic(auto)]

ghost use Rattle.std.specs.Prelude.{◌≡◌, Bool, true, false, cond, ◌&&◌, ℕ, ◌+◌, ◌-◌, ◌*◌, ◌%◌, ◌<◌, ◌≤◌, length};
ghost use Rattle.cells.specs.Cells.{lowest_free};
ghost use Rattle.rows.specs.Rows.{table_word};
ghost use Rattle.units.specs.Units.{units_whole};
ghost use Rattle.schedules.specs.Schedules.{table_count, tables_of, schedules_whole, marked_schedules, taken_anywhere};
ghost use Rattle.schedules.specs.Schedules.{room_known, room_of, scheduled_heads, ready_units, scheduled_units, tables_there};

use rows::{Entry, Room};

// The tables of a schedule kind, and the words that their units take.
pub const TABLES: usize = 16;

pub const SCHEDULE_WORDS: usize = 4608;

// Where a set goes among the schedules, and whether that schedule is refilled because its last_table_id changed.
#[derive(Clone, Copy)]
pub struct ScheduleRoom {
    pub room: Room,
    pub refill: bool,
}

// ---- how many tables

// How many tables there are from the first of the kind to last_table_id, the 16 of the kind at most.
fn table_count(kind: u64, last: u64) -> usize
    ensures { (result ≡ table_count kind last) × (result ≤ 16) }
{
    let first = units::first_table(kind);
    if last < first {
        return 1;
    }
    if last - first < 15 {
        (last - first) as usize + 1
    } else {
        TABLES
    }
}

// The kind of the schedule of row k.
fn kind_at(heads: &[u64], k: usize) -> u64
    requires { k * 12 + 12 ≤ length heads.now }
    ensures { result ≡ table_word heads.now k }
{
    let key = rows::key_at(heads, k);
    key.table_id
}

// How many tables the schedule of row k may have. Only these are looked at, so that a schedule of few tables costs few.
pub fn tables_of(heads: &[u64], k: usize) -> usize
    requires { k * 12 + 12 ≤ length heads.now }
    ensures { (result ≡ tables_of heads.now k) × (result ≤ 16) }
{
    table_count(kind_at(heads, k), rows::last(heads, k))
}

// ---- all schedules in use

// Whether the tables of the schedule of row k are whole.
fn schedule_whole(heads: &[u64], units: &[u32], count: u16, size: u16, k: usize) -> bool
    requires { (k * 12 + 12 ≤ length heads.now) × (k * 4608 + 4608 ≤ length units.now) × (12 ≤ size) × (size ≤ 4096) }
    ensures { result ≡ units_whole units.now count size (k * 16) (tables_of heads.now k) }
{
    if rows::last(heads, k) <= units::first_table(kind_at(heads, k)) {
        if units::single_whole(units, count, size, k * TABLES) {
            return true;
        }
    }
    units::units_whole(units, count, size, k * TABLES, tables_of(heads, k))
}

// Whether the tables of the first n schedules are whole.
pub fn schedules_whole(heads: &[u64], units: &[u32], count: u16, size: u16, n: usize) -> bool
    requires { (n * 12 ≤ length heads.now) × (n * 4608 ≤ length units.now) × (12 ≤ size) × (size ≤ 4096) }
    ensures { result ≡ schedules_whole heads.now units.now count size n }
{
    let mut ok = true;
    for k in (0..n).rev() {
        ok &= schedule_whole(heads, units, count, size, k);
    }
    ok
}

// Adds each cell that a slot of a table of the first n schedules names.
fn mark_schedules(map: &mut [u64; 1024], heads: &[u64], units: &[u32], n: usize)
    requires { (n * 12 ≤ length heads.now) × (n * 4608 ≤ length units.now) }
    ensures { map.new ≡ marked_schedules heads.now units.now n map.old }
{
    for k in (0..n).rev() {
        units::mark_units(map, units, k * TABLES, tables_of(heads, k));
    }
}

// The lowest cell that neither a slot of a row in use, other than the row `gone`, nor a slot of a table of the first n schedules names, or
// count where there is none.
pub fn lowest_free(
    heads: &[u64],
    slots: &[u32],
    schedule_heads: &[u64],
    units: &[u32],
    gone: usize,
    used: usize,
    n: usize,
    count: usize,
) -> usize
    requires { (used * 12 ≤ length heads.now) × (used * 288 ≤ length slots.now) × (n * 12 ≤ length schedule_heads.now) × (n * 4608 ≤ length units.now) × (count ≤ 65535) }
    ensures { result ≡ lowest_free (taken_anywhere heads.now slots.now schedule_heads.now units.now gone used n) count }
{
    let mut map = [0u64; 1024];
    rows::mark_rows(&mut map, heads, slots, gone, used);
    mark_schedules(&mut map, schedule_heads, units, n);
    cells::lowest_clear(&map, count)
}

// ---- the schedule that a set goes into: `e` has its key and last_table_id

// Schedule k has the key.
fn known_room(heads: &[u64], held: usize, evictions: u64, e: Entry, k: usize) -> ScheduleRoom
    requires { (k < held) × (held * 12 ≤ length heads.now) }
    ensures { result ≡ room_known heads.now held evictions e k }
{
    if rows::last(heads, k) == e.last {
        let room = placing::room_in(held, evictions, k);
        ScheduleRoom {
            room,
            refill: false,
        }
    } else {
        let room = placing::room_renewed(held, evictions, k);
        ScheduleRoom { room, refill: true }
    }
}

// The schedule of the entry's key, among the first `held` or a new one.
pub fn find_room(heads: &[u64], limit: usize, held: usize, evictions: u64, e: Entry) -> ScheduleRoom
    requires { (0 < limit) × (held ≤ limit) × (held * 12 ≤ length heads.now) × (evictions < 18446744073709551615) }
    ensures { result ≡ room_of heads.now limit held evictions e }
{
    let k = rows::find(heads, e.key, held);
    if k < held {
        known_room(heads, held, evictions, e, k)
    } else {
        let room = rows::room_new(heads, limit, held, evictions);
        ScheduleRoom {
            room,
            refill: false,
        }
    }
}

// The schedule's head is written, and it becomes the newest.
pub fn put_head(heads: &mut [u64], room: Room, e: Entry, clock: u64)
    requires { (room.row < room.used) × (room.used * 12 ≤ length heads.old) }
    ensures { heads.new ≡ scheduled_heads clock room e heads.old }
{
    rows::keep_head(heads, room, e);
    rows::touch(heads, room.row, clock);
}

// A schedule that begins anew is emptied, and refilled where its range changed, but for the table `own`.
fn ready_units(
    units: &mut [u32],
    heads: &[u64],
    slots: &[u32],
    used: usize,
    e: Entry,
    own: u64,
    r: ScheduleRoom,
)
    requires { ((r.room.row * 16 + 16) * 288 ≤ length units.old) × (used * 12 ≤ length heads.now) × (used * 288 ≤ length slots.now) }
    ensures { units.new ≡ ready_units heads.now slots.now used e own r units.old }
{
    let room = r.room;
    if room.fresh {
        let base = room.row * TABLES;
        units::empty_units(units, base, TABLES);
        if r.refill {
            let key = e.key;
            let n = table_count(key.table_id, e.last);
            units::refill(units, heads, slots, used, key, own, base, n);
        }
    }
}

// The set of row i is put in as the table `own`.
pub fn put_units(
    units: &mut [u32],
    heads: &[u64],
    slots: &[u32],
    used: usize,
    e: Entry,
    own: u64,
    i: usize,
    r: ScheduleRoom,
)
    requires { ((r.room.row * 16 + 16) * 288 ≤ length units.old) × (used * 12 ≤ length heads.now) × (used * 288 ≤ length slots.now) × (i < used) }
    ensures { units.new ≡ scheduled_units heads.now slots.now used e own i r units.old }
{
    ready_units(units, heads, slots, used, e, own, r);
    let room = r.room;
    let u = room.row * TABLES + (own % 16) as usize;
    units::put_set(units, heads, slots, i, u);
}

// Whether the schedule has all tables from the first of the kind to last_table_id.
pub fn tables_there(units: &[u32], row: usize, e: Entry) -> bool
    requires { (row * 16 + 16) * 288 ≤ length units.now }
    ensures { result ≡ tables_there units.now row e }
{
    let key = e.key;
    if e.last < units::first_table(key.table_id) + 16 {
        return units::all_present(units, row * TABLES, table_count(key.table_id, e.last));
    }
    false
}
