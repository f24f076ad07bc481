// The segments of a set of EIT sections, by which the set is complete (EN 300 468, 5.2.4; docs/RULES.md, "Collectors"): 32 words a row, before
// its slots.
#![tactic(auto)]

ghost use Rattle.std.specs.Prelude.{◌≡◌, Bool, true, false, cond, not, ◌&&◌, ℕ, ◌+◌, ◌-◌, ◌*◌, ◌/◌, ◌%◌, ◌<◌, ◌≤◌, length, get_or};
ghost use Rattle.segments.specs.Segments.{word_of, with_word, filled_to, segment_complete, segments_complete, set_complete, kept_section};

use rows::{Entry, Room};

const SEGMENT: usize = 8;

// ---- words

fn wide(x: u8) -> usize
    ensures { (result ≡ x) × (result < 256) }
{
    x as usize
}

// Word k of row or unit i.
pub fn word(words: &[u32], i: usize, k: usize) -> u32
    requires { (i * 288 + 288 ≤ length words.now) × (k < 288) }
    ensures { result ≡ word_of words.now i k }
{
    words[i * rows::ROW_WORDS + k]
}

pub fn put_word(words: &mut [u32], i: usize, k: usize, v: u32)
    requires { (i * 288 + 288 ≤ length words.old) × (k < 288) }
    ensures { words.new ≡ with_word i k v words.old }
{
    words[i * rows::ROW_WORDS + k] = v;
}

// ---- segments

// Whether slots start to end of row i are filled.
fn filled_to(slots: &[u32], i: usize, start: usize, end: usize) -> bool
    requires { (i * 288 + 288 ≤ length slots.now) × (start ≤ end) × (end < 256) }
    ensures { result ≡ filled_to slots.now i start end }
{
    let at = i * rows::ROW_WORDS + rows::SEGMENT_WORDS + start;
    let n = end + 1 - start;
    cells::all_filled(&slots[at..at + n])
}

// Whether segment s of row i has a last number, and every slot up to it is filled. The segment's end is by the low bits of the number alone.
fn segment_complete(slots: &[u32], i: usize, last: u8, s: usize) -> bool
    requires { (i * 288 + 288 ≤ length slots.now) × (s * 8 ≤ last) }
    ensures { result ≡ segment_complete slots.now i last s }
{
    let n = word(slots, i, s);
    if n == 0 {
        return false;
    }
    let start = s * SEGMENT;
    let end = eit_section::segment_end(start as u8, ((n - 1) % 256) as u8, last);
    filled_to(slots, i, start, wide(end))
}

// Whether each segment of row i, up to the one of `last`, is complete.
fn segments_complete(slots: &[u32], i: usize, last: u8) -> bool
    requires { i * 288 + 288 ≤ length slots.now }
    ensures { result ≡ segments_complete slots.now i last (last / 8 + 1) }
{
    let mut ok = true;
    for s in (0..wide(last) / SEGMENT + 1).rev() {
        ok &= segment_complete(slots, i, last, s);
    }
    ok
}

// Whether the set in row i is complete.
pub fn set_complete(heads: &[u64], slots: &[u32], i: usize) -> bool
    requires { (i * 12 + 12 ≤ length heads.now) × (i * 288 + 288 ≤ length slots.now) }
    ensures { result ≡ set_complete heads.now slots.now i }
{
    let last = rows::slot_count(rows::last(heads, i)) - 1;
    segments_complete(slots, i, last as u8)
}

// The section's slot gets the word w and its segment the word n; a row that begins anew is emptied first, segments too.
pub fn keep_section(slots: &mut [u32], room: Room, e: Entry, n: u32, w: u32)
    requires { (room.row * 288 + 288 ≤ length slots.old) × (e.number ≤ e.last) × (e.last < 256) }
    ensures { slots.new ≡ kept_section room e n w slots.old }
{
    let at = room.row * rows::ROW_WORDS;
    rows::empty_where(slots, room.fresh, at, rows::SEGMENT_WORDS);
    rows::keep_slot(slots, room, e, w);
    put_word(slots, room.row, e.number / SEGMENT, n);
}
