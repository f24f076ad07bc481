// The rows of a collector. No row ever moves to keep an order: a row's tick is what a clock showed when it was touched last.
// Lent are heads, 12 words a row, and slots, 288 words a row. Rows 0 to used - 1 are in use. What a collector adds (when a row is
// complete, what an answer is) is its own; how it finds, touches, evicts, empties and scans rows is here.
#![tactic(auto)]

ghost use Rattle.std.specs.Prelude.{◌≡◌, true, cond, ◌+◌, ◌-◌, ◌*◌, ◌<◌, ◌≤◌, length, get_or};
ghost use Rattle.std.proofs.Math.Seq.{paste};
ghost use Rattle.cells.specs.Cells.{all_whole, all_filled};
ghost use Rattle.rows.specs.Rows.{room_new, gone_row, kept_heads, slots_at, slot_count, row_slots, emptied, kept_slots, rows_whole, marked_row, marked_rows, tick_of, last_of, mark_of, version_of, with_mark};
ghost use Rattle.rows.specs.Rows.{word, put, origin_at, same_origin, key_at, same_key, row_of, earlier_of, oldest_of, touched, fresh_head};

// Where a row's sections came from, in the words of a head.
#[derive(Clone, Copy, PartialEq, Eq)]
pub struct Origin {
    pub input: u64,
    pub pid: u64,
}

impl Origin {
    // The PID word of a row without a PID: no PID has this number.
    pub const NO_PID: u64 = 8192;
}

// What tells one row from another. The set collector has 0 as transport_stream_id and original_network_id.
#[derive(Clone, Copy, PartialEq, Eq)]
pub struct Key {
    pub from: Origin,
    pub table_id: u64,
    pub extension: u64,
    pub current_next: u64,
    pub transport_stream_id: u64,
    pub original_network_id: u64,
}

// What a section says of the row that it goes into, and of its slot there.
#[derive(Clone, Copy)]
pub struct Entry {
    pub key: Key,
    pub version: u64,
    pub last: u64,
    pub number: usize,
}

// Where a section that is kept goes: its row; whether that row begins anew; and the rows in use and the evictions from then on.
#[derive(Clone, Copy)]
pub struct Room {
    pub row: usize,
    pub fresh: bool,
    pub used: usize,
    pub evictions: u64,
}

// The words of a row in the lent heads and in the lent slots, where its 256 slots follow 32 words of segments.
pub const HEAD_WORDS: usize = 12;

pub const ROW_WORDS: usize = 288;

pub const SEGMENT_WORDS: usize = 32;

const EXTENSION: usize = 2;

const VERSION: usize = 6;

const LAST: usize = 7;

const MARK: usize = 8;

const TICK: usize = 9;

const INPUT: usize = 10;

// ---- heads

fn get(heads: &[u64], i: usize, k: usize) -> u64
    requires { (i * 12 + 12 ≤ length heads.now) × (k < 12) }
    ensures { result ≡ word heads.now i k }
{
    heads[i * HEAD_WORDS + k]
}

fn change(heads: &mut [u64], i: usize, k: usize, v: u64)
    requires { (i * 12 + 12 ≤ length heads.old) × (k < 12) }
    ensures { heads.new ≡ put i k v heads.old }
{
    heads[i * HEAD_WORDS + k] = v;
}

pub fn version(heads: &[u64], i: usize) -> u64
    requires { i * 12 + 12 ≤ length heads.now }
    ensures { result ≡ version_of heads.now i }
{
    get(heads, i, VERSION)
}

pub fn last(heads: &[u64], i: usize) -> u64
    requires { i * 12 + 12 ≤ length heads.now }
    ensures { result ≡ last_of heads.now i }
{
    get(heads, i, LAST)
}

pub fn mark(heads: &[u64], i: usize) -> u64
    requires { i * 12 + 12 ≤ length heads.now }
    ensures { result ≡ mark_of heads.now i }
{
    get(heads, i, MARK)
}

fn tick(heads: &[u64], i: usize) -> u64
    requires { i * 12 + 12 ≤ length heads.now }
    ensures { result ≡ tick_of heads.now i }
{
    get(heads, i, TICK)
}

pub fn set_mark(heads: &mut [u64], i: usize, v: u64)
    requires { i * 12 + 12 ≤ length heads.old }
    ensures { heads.new ≡ with_mark i v heads.old }
{
    change(heads, i, MARK, v);
}

fn origin_at(heads: &[u64], i: usize) -> Origin
    requires { i * 12 + 12 ≤ length heads.now }
    ensures { result ≡ origin_at heads.now i }
{
    Origin {
        input: get(heads, i, INPUT),
        pid: get(heads, i, 0),
    }
}

pub fn key_at(heads: &[u64], i: usize) -> Key
    requires { i * 12 + 12 ≤ length heads.now }
    ensures { result ≡ key_at heads.now i }
{
    Key {
        from: origin_at(heads, i),
        table_id: get(heads, i, 1),
        extension: get(heads, i, 2),
        current_next: get(heads, i, 3),
        transport_stream_id: get(heads, i, 4),
        original_network_id: get(heads, i, 5),
    }
}

pub fn same_key(a: Key, b: Key) -> bool
    ensures { result ≡ same_key a b }
{
    a == b
}

// Whether row i has the key. Rows differ most often in the extension: of those that do, one word is read.
fn key_is(heads: &[u64], i: usize, key: Key) -> bool
    requires { i * 12 + 12 ≤ length heads.now }
    ensures { result ≡ same_key (key_at heads.now i) key }
{
    if get(heads, i, EXTENSION) != key.extension {
        return false;
    }
    same_key(key_at(heads, i), key)
}

// The first row in use that has the key, or used where none has it.
pub fn find(heads: &[u64], key: Key, used: usize) -> usize
    requires { used * 12 ≤ length heads.now }
    ensures { result ≡ row_of heads.now key used }
{
    for i in 0..used {
        if key_is(heads, i, key) {
            return i;
        }
    }
    used
}

// ---- the touch order

// Row i where it was touched before the row best, else best.
fn elder(heads: &[u64], best: usize, i: usize) -> usize
    requires { (best * 12 + 12 ≤ length heads.now) × (i * 12 + 12 ≤ length heads.now) }
    ensures { result ≡ earlier_of heads.now best i }
{
    if tick(heads, i) < tick(heads, best) {
        i
    } else {
        best
    }
}

// The first of the rows in use that have the smallest tick, 0 where none is in use.
pub fn oldest(heads: &[u64], used: usize) -> usize
    requires { used * 12 ≤ length heads.now }
    ensures { result ≡ oldest_of heads.now used }
{
    let mut best = 0;
    for i in 0..used {
        best = elder(heads, best, i);
    }
    best
}

// Row i becomes the newest: its tick is the clock's, which has risen above every tick in use.
pub fn touch(heads: &mut [u64], i: usize, clock: u64)
    requires { i * 12 + 12 ≤ length heads.old }
    ensures { heads.new ≡ touched clock i heads.old }
{
    change(heads, i, TICK, clock);
}

// ---- a row for a section

// Row i begins anew with the section, with no mark; its tick is 0 until it is touched.
pub fn fresh_head(heads: &mut [u64], i: usize, e: Entry)
    requires { i * 12 + 12 ≤ length heads.old }
    ensures { heads.new ≡ fresh_head i e heads.old }
{
    let k = e.key;
    let from = k.from;
    let words = [
        from.pid,
        k.table_id,
        k.extension,
        k.current_next,
        k.transport_stream_id,
        k.original_network_id,
        e.version,
        e.last,
        0,
        0,
        from.input,
        0,
    ];
    let at = i * HEAD_WORDS;
    heads[at..at + HEAD_WORDS].copy_from_slice(&words);
}

// Room for a key that no row in use has.
pub fn room_new(heads: &[u64], limit: usize, used: usize, evictions: u64) -> Room
    requires { (used * 12 ≤ length heads.now) × (evictions < 18446744073709551615) }
    ensures { result ≡ room_new heads.now limit used evictions }
{
    if used < limit {
        Room {
            row: used,
            fresh: true,
            used: used + 1,
            evictions,
        }
    } else {
        let o = oldest(heads, used);
        Room {
            row: o,
            fresh: true,
            used,
            evictions: evictions + 1,
        }
    }
}

// The row whose slots no longer count, or used where there is none.
pub fn gone_row(room: Room, used: usize) -> usize
    ensures { result ≡ gone_row room used }
{
    if room.fresh { room.row } else { used }
}

// The head of the section's row.
pub fn keep_head(heads: &mut [u64], room: Room, e: Entry)
    requires { room.row * 12 + 12 ≤ length heads.old }
    ensures { heads.new ≡ kept_heads room e heads.old }
{
    if room.fresh {
        fresh_head(heads, room.row, e);
    } else {
        set_mark(heads, room.row, 0);
    }
}

// ---- slots

// How many slots a row has. A last_section_number above 255 is no section's: such a row has 256 until the next section empties it.
pub fn slot_count(last: u64) -> usize
    ensures { (result ≡ slot_count last) × (0 < result) × (result ≤ 256) }
{
    if last < 255 { last as usize + 1 } else { 256 }
}

// The slots of row i.
pub fn row_slots<'a>(heads: &[u64], slots: &'a [u32], i: usize) -> &'a [u32]
    requires { (i * 12 + 12 ≤ length heads.now) × (i * 288 + 288 ≤ length slots.now) }
    ensures { result.now ≡ row_slots heads.now slots.now i }
{
    let n = slot_count(last(heads, i));
    let at = i * ROW_WORDS + SEGMENT_WORDS;
    &slots[at..at + n]
}

// The word of slot j of row i.
pub fn slot(slots: &[u32], i: usize, j: usize) -> u32
    requires { (i * 288 + 288 ≤ length slots.now) × (j < 256) }
    ensures { result ≡ get_or slots.now (slots_at i + j) 0 }
{
    slots[i * ROW_WORDS + SEGMENT_WORDS + j]
}

// The n slots from `at` on are emptied.
fn empty_part(slots: &mut [u32], at: usize, n: usize)
    requires { at + n ≤ length slots.old }
    ensures { slots.new ≡ emptied at n slots.old }
{
    slots[at..at + n].fill(0);
}

// The n words from `at` on are emptied where a row begins anew.
pub fn empty_where(slots: &mut [u32], fresh: bool, at: usize, n: usize)
    requires { at + n ≤ length slots.old }
    ensures { slots.new ≡ cond fresh (emptied at n slots.old) slots.old }
{
    if fresh {
        empty_part(slots, at, n);
    }
}

// The section's slot gets the word w; a row that begins anew is emptied first.
pub fn keep_slot(slots: &mut [u32], room: Room, e: Entry, w: u32)
    requires { (room.row * 288 + 288 ≤ length slots.old) × (e.number ≤ e.last) × (e.last < 256) }
    ensures { slots.new ≡ kept_slots room e w slots.old }
{
    let at = room.row * ROW_WORDS + SEGMENT_WORDS;
    empty_where(slots, room.fresh, at, e.last as usize + 1);
    let j = at + e.number;
    slots[j] = w;
}

// Whether each slot of row i is filled.
pub fn row_full(heads: &[u64], slots: &[u32], i: usize) -> bool
    requires { (i * 12 + 12 ≤ length heads.now) × (i * 288 + 288 ≤ length slots.now) }
    ensures { result ≡ all_filled (row_slots heads.now slots.now i) }
{
    cells::all_filled(row_slots(heads, slots, i))
}

// Whether each slot of row i is whole. Every call of a collector asks it of every row, and most rows have one slot, which is filled: the
// loop over the slots is for the others.
pub fn row_whole(heads: &[u64], slots: &[u32], count: u16, size: u16, i: usize) -> bool
    requires { (i * 12 + 12 ≤ length heads.now) × (i * 288 + 288 ≤ length slots.now) × (12 ≤ size) × (size ≤ 4096) }
    ensures { result ≡ all_whole count size (row_slots heads.now slots.now i) }
{
    if last(heads, i) == 0 {
        if cells::filled_whole(slot(slots, i, 0), count, size) {
            return true;
        }
    }
    cells::all_whole(row_slots(heads, slots, i), count, size)
}

// ---- all rows in use

// Adds each cell that a slot of row i names, unless it is the row `gone`.
fn mark_row(map: &mut [u64; 1024], heads: &[u64], slots: &[u32], gone: usize, i: usize)
    requires { (i * 12 + 12 ≤ length heads.now) × (i * 288 + 288 ≤ length slots.now) }
    ensures { map.new ≡ marked_row heads.now slots.now gone i map.old }
{
    if i != gone {
        cells::mark_all(map, row_slots(heads, slots, i));
    }
}

// Adds each cell that a slot of a row in use, other than the row `gone`, names.
pub fn mark_rows(map: &mut [u64; 1024], heads: &[u64], slots: &[u32], gone: usize, used: usize)
    requires { (used * 12 ≤ length heads.now) × (used * 288 ≤ length slots.now) }
    ensures { map.new ≡ marked_rows heads.now slots.now gone used map.old }
{
    for i in (0..used).rev() {
        mark_row(map, heads, slots, gone, i);
    }
}
