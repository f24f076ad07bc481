// What a drop by filter does to the rows of a collector, sets and schedules alike (docs/RULES.md, "Collectors": "sets and schedules that match
// go"). The rows in use are the first `used`. From the last down to the first, a row that matches leaves: the last row in use takes its place.
// Words past the rows in use stay as they are, and nothing is counted.
#![tactic(auto)]

ghost use Rattle.std.specs.Prelude.{◌≡◌, Bool, true, false, ℕ, ◌+◌, ◌-◌, ◌*◌, ◌<◌, ◌≤◌, length};
ghost use Rattle.filter.specs.Drops.{wants, wants_origin, kind_told, kind_word, kind_in, matches, width_of, moved_to, removed_heads, removed_words};
ghost use Rattle.filter.specs.Drops.{Fits, rest, dropped_row, dropped_rows};

use eit_section::Kind;
use rows::{Key, Origin};

// What a filter wants of where a row's sections came from, in the words of a head: a field is free (none), or exactly a word.
#[derive(Clone, Copy)]
pub struct WantedOrigin {
    pub input: Option<u64>,
    pub pid: Option<u64>,
}

// What a filter wants of each field, in the words of a head: the kinds are 0 to 3 as in a schedule's head.
#[derive(Clone, Copy)]
pub struct Fields {
    pub from: WantedOrigin,
    pub kind: Option<u64>,
    pub service_id: Option<u64>,
    pub transport_stream_id: Option<u64>,
    pub original_network_id: Option<u64>,
    pub current_next: Option<u64>,
}

// Whose rows: a set's row has 288 words and the table_id in its head, a schedule's 16 units of 288 words and the kind in the table_id's place.
#[derive(Clone, Copy)]
pub enum Of {
    Sets,
    Schedules,
}

// No kind has this number.
const NO_KIND: u64 = 4;

// ---- which rows match

fn fits(w: Option<u64>, v: u64) -> bool
    ensures { result ≡ wants w v }
{
    match w {
        None => true,
        Some(x) => v == x,
    }
}

fn fits_origin(w: WantedOrigin, o: Origin) -> bool
    ensures { result ≡ wants_origin w o }
{
    let input = w.input;
    let pid = w.pid;
    fits(input, o.input) & fits(pid, o.pid)
}

// The kind by the table_id word in a set's head, by its number.
fn kind_word(table_id: u64) -> u64
    ensures { result ≡ kind_word table_id }
{
    if table_id < 256 {
        return kind_told(Kind::from_table_id(table_id as u8));
    }
    NO_KIND
}

fn kind_told(kind: Option<Kind>) -> u64
    ensures { result ≡ kind_told kind }
{
    match kind {
        Some(k) => arrivals::kind_number(k),
        None => NO_KIND,
    }
}

fn kind_in(of: Of, word: u64) -> u64
    ensures { result ≡ kind_in of word }
{
    match of {
        Of::Sets => kind_word(word),
        Of::Schedules => word,
    }
}

// Whether a key has what is wanted of each field.
pub fn matching(of: Of, f: Fields, k: Key) -> bool
    ensures { result ≡ matches of f k }
{
    let from = f.from;
    let kind = f.kind;
    let service_id = f.service_id;
    let transport_stream_id = f.transport_stream_id;
    let original_network_id = f.original_network_id;
    let current_next = f.current_next;
    fits_origin(from, k.from)
        & fits(kind, kind_in(of, k.table_id))
        & fits(service_id, k.extension)
        & fits(transport_stream_id, k.transport_stream_id)
        & fits(original_network_id, k.original_network_id)
        & fits(current_next, k.current_next)
}

// ---- a row leaves

// The words of a row.
fn width(of: Of) -> usize
    ensures { result ≡ width_of of }
{
    match of {
        Of::Sets => rows::ROW_WORDS,
        Of::Schedules => schedules::SCHEDULE_WORDS,
    }
}

// The head of row i leaves: the last row in use takes its place.
fn remove_head(heads: &mut [u64], used: usize, i: usize)
    requires { (i < used) × (used * 12 ≤ length heads.old) }
    ensures { heads.new ≡ removed_heads used i heads.old }
{
    let last = (used - 1) * rows::HEAD_WORDS;
    heads.copy_within(last..last + rows::HEAD_WORDS, i * rows::HEAD_WORDS);
}

// So the words of row i.
fn remove_words(of: Of, words: &mut [u32], used: usize, i: usize)
    requires { (i < used) × (used * width_of of ≤ length words.old) }
    ensures { words.new ≡ removed_words of used i words.old }
{
    let w = width(of);
    let last = (used - 1) * w;
    words.copy_within(last..last + w, i * w);
}

// ---- all rows in use

// Row i leaves where it matches: the rows in use from then on.
fn drop_row(of: Of, f: Fields, heads: &mut [u64], words: &mut [u32], used: usize, i: usize) -> usize
    requires { (i < used) × Fits of heads.old words.old used }
    ensures { (rest heads.new words.new result ≡ dropped_row of f i (rest heads.old words.old used)) × (i ≤ result) × (result ≤ used) }
{
    if matching(of, f, rows::key_at(heads, i)) {
        remove_head(heads, used, i);
        remove_words(of, words, used, i);
        return used - 1;
    }
    used
}

// Each row that matches leaves: the rows in use from then on.
pub fn drop_rows(of: Of, f: Fields, heads: &mut [u64], words: &mut [u32], used: usize) -> usize
    requires { Fits of heads.old words.old used }
    ensures { rest heads.new words.new result ≡ dropped_rows of f used (rest heads.old words.old used) }
{
    let mut left = used;
    for i in (0..used).rev() {
        left = drop_row(of, f, heads, words, left, i);
    }
    left
}
