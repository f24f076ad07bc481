// Where two sides differ (docs/RULES.md, "Compared guides"): the entries of the list, and what is said of the tables of two schedules. A side is
// sections by rising table_id and number in lent bytes. These are the parts of `guides`, which has made sure that both sides are laid so.
#![tactic(auto)]

ghost use Rattle.std.specs.Prelude.{◌≡◌, cond, ◌+◌, ◌≤◌, ◌<◌, min, length, set};
ghost use Rattle.std.proofs.lemmas.List.Edits.{sets};
ghost use Rattle.laid.specs.Laid.{sections_in};
ghost use Rattle.laid.specs.Walk.{Sectioned};
ghost use Rattle.differences.specs.Rules.{first_place, table_word, table_words};
ghost use Rattle.differences.specs.Walk.{SameTo, only_of, difference_of, entry_words, Ranked, all_differences, all_words, Tabled};

// How two sections of one table and number differ: the kind of the entry (0: they do not), and the first differing place.
#[derive(Clone, Copy)]
pub struct Difference {
    pub kind: u32,
    pub place: u32,
}

// The words of an entry: table_id, section number, kind, place.
pub const ENTRY_WORDS: usize = 4;

pub const ONLY_FIRST: u32 = 1;

pub const ONLY_SECOND: u32 = 2;

pub const OTHER_BYTES: u32 = 3;

// ---- two sections

// Bytes that are compared at once: enough for the comparison to work on many at a time, few enough to search one by one.
const BLOCK: usize = 256;

fn shorter(n: usize, m: usize) -> usize
    ensures { result ≡ min n m }
{
    if n < m { n } else { m }
}

// A place up to which the two are equal: the first block that is not, or the last that is not whole.
fn same_blocks(x: &[u8], y: &[u8]) -> usize
    ensures { SameTo x.now y.now result }
{
    let blocks = shorter(x.len(), y.len()) / BLOCK;
    for block in 0..blocks {
        let i = block * BLOCK;
        if !cells::same_bytes(&x[i..i + BLOCK], &y[i..i + BLOCK]) {
            return i;
        }
    }
    blocks * BLOCK
}

// The first byte at which the two differ, the shorter length where there is none.
fn first_place(x: &[u8], y: &[u8]) -> usize
    ensures { (result ≡ first_place x.now y.now) × (result ≤ length x.now) }
{
    let n = shorter(x.len(), y.len());
    for i in same_blocks(x, y)..n {
        if x[i] != y[i] {
            return i;
        }
    }
    n
}

fn only(kind: u32) -> Difference
    ensures { result ≡ only_of kind }
{
    Difference { kind, place: 0 }
}

// How two sections of one rank differ; an empty part stands for a section that is not there.
fn compare_sections(x: &[u8], y: &[u8]) -> Difference
    requires { length x.now ≤ 4098 }
    ensures { result ≡ difference_of x.now y.now }
{
    if x.len() == 0 {
        if y.len() == 0 {
            return only(0);
        }
        return only(ONLY_SECOND);
    }
    if y.len() == 0 {
        return only(ONLY_FIRST);
    }
    let place = first_place(x, y);
    if (place == x.len()) & (place == y.len()) {
        return only(0);
    }
    Difference {
        kind: OTHER_BYTES,
        place: place as u32,
    }
}

// ---- the list

// Word k of the list, where it has one.
fn put(list: &mut [u32], k: usize, v: u32)
    ensures { list.new ≡ set list.old k v }
{
    if k < list.len() {
        list[k] = v;
    }
}

// The four words of an entry go in at `at`, none of kind 0. What the list has no room for is left out: a pass that only counts is lent none.
fn put_entry(list: &mut [u32], at: usize, rank: usize, d: Difference) -> usize
    requires { (at < 18446744073709551000) × (rank < 65536) }
    ensures value { (result ≡ at + length (entry_words rank d)) × (result ≤ at + 4) }
    ensures list_after { list.new ≡ sets list.old at (entry_words rank d) }
{
    if d.kind == 0 {
        return at;
    }
    put(list, at, (rank / 256) as u32);
    put(list, at + 1, (rank % 256) as u32);
    put(list, at + 2, d.kind);
    put(list, at + 3, d.place);
    at + 4
}

// The entries of two sides, by rising table_id and number, go into the list; answers how many words they are. At each turn the lower of the two ranks
// is looked at, and a side moves on where it holds that rank.
pub fn list_differences(first: &[u8], second: &[u8], list: &mut [u32]) -> usize
    requires ranked { Ranked first.now }
    requires ranked_2 { Ranked second.now }
    ensures value { result ≡ length (all_words first.now second.now) }
    ensures list_after { list.new ≡ sets list.old 0 (all_words first.now second.now) }
{
    let mut i = 0;
    let mut j = 0;
    let mut at = 0;
    while (i < first.len()) | (j < second.len()) {
        let rank = shorter(laid::rank_at(first, i), laid::rank_at(second, j));
        let x = laid::section_at(first, i, rank);
        let y = laid::section_at(second, j, rank);
        at = put_entry(list, at, rank, compare_sections(x, y));
        i += x.len();
        j += y.len();
    }
    at
}

// How many entries there are: a pass that is lent no room.
pub fn count(first: &[u8], second: &[u8]) -> usize
    requires ranked { Ranked first.now }
    requires ranked_2 { Ranked second.now }
    ensures { result ≡ length (all_differences (sections_in first.now) (sections_in second.now)) }
{
    let mut none = [0u32; 1];
    list_differences(first, second, &mut none[0..0]) / ENTRY_WORDS
}

// ---- the tables of two schedules

fn unless(agree: bool, n: u32) -> u32
    ensures { (result ≡ cond agree 0 n) × (result ≤ n) }
{
    if agree { 0 } else { n }
}

// The word of a table, by its first sections on the two sides.
fn table_word(x: &[u8], y: &[u8]) -> u32
    requires sectioned { Sectioned x.now }
    requires sectioned_2 { Sectioned y.now }
    ensures { result ≡ table_word x.now y.now }
{
    if x.len() == 0 {
        if y.len() == 0 {
            return 0;
        }
        return 2;
    }
    if y.len() == 0 {
        return 1;
    }
    let versions = unless(x[5] / 2 % 32 == y[5] / 2 % 32, 4);
    let lasts = unless(x[7] == y[7], 8);
    3 + versions + lasts
}

// The words of the 16 tables from `base` on. Tables rise on both sides, so one walk over each meets them in order.
pub fn table_words(first: &[u8], second: &[u8], base: usize) -> [u32; 16]
    requires base_bound { base ≤ 240 }
    requires tabled { Tabled base first.now }
    requires tabled_2 { Tabled base second.now }
    ensures { result ≡ table_words base (sections_in first.now) (sections_in second.now) }
{
    let mut words = [0u32; 16];
    let mut i = 0;
    let mut j = 0;
    for t in 0..16 {
        let table = base + t;
        words[t] = table_word(
            laid::table_at(first, i, table),
            laid::table_at(second, j, table),
        );
        i = laid::pass(first, i, table + 1);
        j = laid::pass(second, j, table + 1);
    }
    words
}
