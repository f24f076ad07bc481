// What the calls are made of once both sides are known to be what they should be.
ghost use Rattle.std.specs.Prelude.{◌≡◌, cond, ℕ, ◌/◌, ◌%◌, ◌<◌, ◌≤◌, length, eqb};
ghost use Rattle.laws.specs.Lists.{every};
ghost use Rattle.laid.specs.Laid.{sections_in, kind_first, same_version, same_last};
ghost use Rattle.laid.specs.Walk.{numbered, place_in};
ghost use Rattle.differences.specs.Rules.{versions_agree, lasts_agree};
ghost use Rattle.differences.specs.Walk.{Ranked, all_differences};
ghost use Rattle.guides.specs.Store.{told, told_of, list_if, set_entries, schedule_entries, schedule_words, tables_if, held_not, held_one, held_for, held_of};
ghost use Rattle.guides.specs.Store.{AlikeSets, AlikeSchedules, LaidSides};

use crate::{CompareAnswer, Compared, HeldAnswer, Holder};
use section::bytes::wide;

fn told(answer: CompareAnswer, count: usize, versions: bool, lasts: bool) -> Compared
    ensures { result ≡ told answer count versions lasts }
{
    Compared {
        answer,
        count,
        versions,
        lasts,
    }
}

// Counts the entries of two sides, and lists them where there is room.
fn list_within(
    first: &[u8],
    second: &[u8],
    versions: bool,
    lasts: bool,
    list: &mut [u32],
) -> Compared
    requires ranked { Ranked first.now }
    requires ranked_2 { Ranked second.now }
    ensures value { result ≡ told_of (length list.old / 4) (length (all_differences (sections_in first.now) (sections_in second.now))) versions lasts }
    ensures list_after { list.new ≡ list_if (all_differences (sections_in first.now) (sections_in second.now)) list.old }
{
    let count = differences::count(first, second);
    if list.len() / crate::ENTRY_WORDS < count {
        return told(CompareAnswer::NoRoom, count, versions, lasts);
    }
    differences::list_differences(first, second, list);
    if count == 0 {
        told(CompareAnswer::Same, count, versions, lasts)
    } else {
        told(CompareAnswer::Differ, count, versions, lasts)
    }
}

pub fn compare_sets(first: &[u8], second: &[u8], list: &mut [u32]) -> Compared
    requires { AlikeSets first.now second.now }
    ensures value { result ≡ told_of (length list.old / 4) (length (set_entries first.now second.now)) (same_version first.now second.now) (same_last first.now second.now) }
    ensures list_after { list.new ≡ list_if (set_entries first.now second.now) list.old }
{
    let versions = first[5] / 2 % 32 == second[5] / 2 % 32;
    let lasts = first[7] == second[7];
    list_within(first, second, versions, lasts, list)
}

// Whether no word has this digit of weight 4 or 8: whether no table that both sides hold differs in its version, or in its last number.
fn agree(words: &[u32], weight: u32) -> bool
    requires { 0 < weight }
    ensures { result ≡ every (λ (w : ℕ). eqb (w / weight % 2) 0) words.now }
{
    words.iter().all(|word| *word / weight % 2 == 0)
}

// The words go out unless there was no room for the list.
fn write_tables(full: bool, words: &[u32; 16], tables: &mut [u32; 16])
    ensures { tables.new ≡ cond full tables.old words.now }
{
    if !full {
        *tables = *words;
    }
}

// The first table_id of a schedule's kind, 0x50 or 0x60.
fn kind_first(table_id: u8) -> usize
    ensures { (result ≡ kind_first table_id) × (result ≤ 240) }
{
    wide(table_id) / 16 * 16
}

pub fn compare_tables(
    first: &[u8],
    second: &[u8],
    tables: &mut [u32; 16],
    list: &mut [u32],
) -> Compared
    requires { AlikeSchedules first.now second.now }
    ensures value { result ≡ told_of (length list.old / 4) (length (schedule_entries first.now second.now)) (versions_agree (schedule_words first.now second.now)) (lasts_agree (schedule_words first.now second.now)) }
    ensures tables_after { tables.new ≡ tables_if (length list.old / 4) (schedule_entries first.now second.now) (schedule_words first.now second.now) tables.old }
    ensures list_after { list.new ≡ list_if (schedule_entries first.now second.now) list.old }
{
    let words = differences::table_words(first, second, kind_first(first[0]));
    let compared = list_within(first, second, agree(&words, 4), agree(&words, 8), list);
    let full = list.len() / crate::ENTRY_WORDS < compared.count;
    write_tables(full, &words, tables);
    compared
}

// A side holds the number where its section there has bytes: n bytes at p in the first, m at q in the second.
fn told_held(p: usize, n: usize, q: usize, m: usize) -> Holder
    ensures { result ≡ held_for n m p q }
{
    if n == 0 {
        if m == 0 {
            return held_not(HeldAnswer::NotOne);
        }
        return held_one(2, q, m);
    }
    if m == 0 {
        return held_one(1, p, n);
    }
    held_not(HeldAnswer::NotOne)
}

pub fn held_not(answer: HeldAnswer) -> Holder
    ensures { result ≡ held_not answer }
{
    Holder {
        answer,
        side: 0,
        start: 0,
        length: 0,
    }
}

fn held_one(side: u32, start: usize, length: usize) -> Holder
    ensures { result ≡ held_one side start length }
{
    Holder {
        answer: HeldAnswer::One,
        side,
        start,
        length,
    }
}

pub fn held_by(first: &[u8], second: &[u8], number: usize) -> Holder
    requires { LaidSides first.now second.now }
    ensures { result ≡ held_of (numbered number (sections_in first.now)) (numbered number (sections_in second.now)) (place_in number (sections_in first.now)) (place_in number (sections_in second.now)) }
{
    let p = laid::place_of(first, number);
    let q = laid::place_of(second, number);
    let n = laid::end_at(first, p) - p;
    let m = laid::end_at(second, q) - q;
    told_held(p, n, q, m)
}
