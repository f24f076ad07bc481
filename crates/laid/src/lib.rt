// Sections laid one after another in bytes, as two laboratories send one table (docs/RULES.md, "Compared guides"): whether the bytes are a set of
// sections or a schedule, the section that starts at a place, the section of a number, and the part of a table. These are the parts of `guides`:
// where one asks for bytes that are laid so, the public calls there have looked.
#![tactic(auto)]

ghost use Rattle.std.specs.Prelude.{◌≡◌, true, cond, ◌+◌, ◌≤◌, ◌<◌, length};
ghost use Rattle.section.specs.Header.{byte_at, word16};
ghost use Rattle.laid.specs.Laid.{word_of, pid_word, is_eit, of_schedule, key_of, key_in, schedule_key_in, in_table, in_set, in_schedule, joins, joined, laid_out, is_set, is_schedule, table_in};
ghost use Rattle.laid.specs.Walk.{Sized, LaidFrom, from, RankAt, head_if, leads, Sectioned, EndAt, Placed, below_table, Passed};

use answers::Refusal;
use rows::{Key, Origin};
use section::bytes::{long_form, section_length, wide, word};
use section::ids::Pid;

// The rank that stands for the end of the bytes: a section's is below it.
pub const NO_RANK: usize = 65536;

// ---- keys

// Why a side's key has no PID word: the side has no PID (41), or the number is no PID (12).
#[derive(Clone, Copy)]
pub enum NoWord {
    NoPid,
    TooLarge,
}

// The PID word of a side's key.
pub fn pid_word(pid: Option<u16>) -> Result<u64, NoWord>
    ensures { result ≡ pid_word pid }
{
    match pid {
        None => Err(NoWord::NoPid),
        Some(v) => made_word(Pid::make(v)),
    }
}

fn made_word(m: Result<Pid, Refusal>) -> Result<u64, NoWord>
    ensures { result ≡ word_of m }
{
    match m {
        Ok(p) => Ok(p.0 as u64),
        Err(_) => Err(NoWord::TooLarge),
    }
}

// An EIT's table_id (EN 300 468, table 2).
pub fn is_eit(table_id: u8) -> bool
    ensures { result ≡ is_eit table_id }
{
    (0x4E <= table_id) & (table_id <= 0x6F)
}

// The table_id of an EIT's schedule.
fn of_schedule(table_id: u8) -> bool
    ensures { result ≡ of_schedule table_id }
{
    (0x50 <= table_id) & (table_id <= 0x6F)
}

// The one place that makes a key of a side: a section's, its table under the number given.
fn key_of(table: u64, pid: u64, s: &[u8]) -> Key
    requires { 12 ≤ length s.now }
    ensures { result ≡ key_of table pid s.now }
{
    let eit = is_eit(s[0]);
    Key {
        from: Origin { input: 0, pid },
        table_id: table,
        extension: word(s, 3) as u64,
        current_next: (s[5] % 2) as u64,
        transport_stream_id: word_if(eit, s, 8),
        original_network_id: word_if(eit, s, 10),
    }
}

// The 16-bit field at byte i of an EIT, 0 of any other section.
fn word_if(eit: bool, s: &[u8], i: usize) -> u64
    requires { i + 1 < length s.now }
    ensures { result ≡ cond eit (word16 (byte_at s.now i) (byte_at s.now (i + 1))) 0 }
{
    if eit { word(s, i) as u64 } else { 0 }
}

// The key of a set that starts with this section.
pub fn key_in(pid: u64, s: &[u8]) -> Key
    requires { 12 ≤ length s.now }
    ensures { result ≡ key_in pid s.now }
{
    key_of(wide(s[0]) as u64, pid, s)
}

// The key of a schedule that starts with this section: of its tables it has the kind alone.
pub fn schedule_key_in(pid: u64, s: &[u8]) -> Key
    requires { 12 ≤ length s.now }
    ensures { result ≡ schedule_key_in pid s.now }
{
    key_of((wide(s[0]) / 16 * 16) as u64, pid, s)
}

// ---- sets and schedules

// The bytes of the long-form section that s starts with, 0 where it starts with no whole one.
fn long_size(s: &[u8]) -> usize
    ensures { Sized s.now result }
{
    if s.len() < 12 {
        return 0;
    }
    let n = 3 + section_length(s);
    if long_form(s) & (12 <= n) & (n <= s.len()) {
        return n;
    }
    0
}

// Whether y comes after x in a table: one version, one last number, a larger number.
fn in_table(x: &[u8], y: &[u8]) -> bool
    requires { (12 ≤ length x.now) × (12 ≤ length y.now) }
    ensures { result ≡ in_table x.now y.now }
{
    (x[5] / 2 % 32 == y[5] / 2 % 32) & (x[7] == y[7]) & (x[6] < y[6])
}

fn in_set(x: &[u8], y: &[u8]) -> bool
    requires { (12 ≤ length x.now) × (12 ≤ length y.now) }
    ensures { result ≡ in_set x.now y.now }
{
    rows::same_key(key_in(0, x), key_in(0, y)) & in_table(x, y)
}

fn in_schedule(x: &[u8], y: &[u8]) -> bool
    requires { (12 ≤ length x.now) × (12 ≤ length y.now) }
    ensures { result ≡ in_schedule x.now y.now }
{
    let one = rows::same_key(schedule_key_in(0, x), schedule_key_in(0, y));
    one & ((x[0] < y[0]) | ((x[0] == y[0]) & in_table(x, y)))
}

fn joins(schedule: bool, x: &[u8], y: &[u8]) -> bool
    requires { (12 ≤ length x.now) × (12 ≤ length y.now) }
    ensures { result ≡ joins schedule x.now y.now }
{
    if schedule {
        in_schedule(x, y)
    } else {
        in_set(x, y)
    }
}

// One or more sections, each after the one before it. The headers alone are read.
fn joined(schedule: bool, s: &[u8]) -> bool
    ensures { result ≡ joined schedule s.now }
{
    let mut prev = 0;
    let mut at = long_size(s);
    if at == 0 {
        return false;
    }
    while at < s.len() {
        let n = long_size(&s[at..s.len()]);
        if n == 0 {
            return false;
        }
        let next = at + n;
        if !joins(schedule, &s[prev..at], &s[at..next]) {
            return false;
        }
        prev = at;
        at = next;
    }
    true
}

pub fn is_set(s: &[u8]) -> bool
    ensures { result ≡ is_set s.now }
{
    joined(false, s)
}

pub fn is_schedule(s: &[u8]) -> bool
    ensures { result ≡ is_schedule s.now }
{
    if joined(true, s) {
        of_schedule(s[0])
    } else {
        false
    }
}

// ---- one section after another

// The end of the section that starts at `at`; `at` itself where no bytes are left.
pub fn end_at(s: &[u8], at: usize) -> usize
    requires { LaidFrom s.now at }
    ensures { EndAt s.now at result }
{
    if at < s.len() {
        at + 3 + section_length(&s[at..s.len()])
    } else {
        at
    }
}

// The rank of the section that starts at `at`: its table_id, and then its number.
pub fn rank_at(s: &[u8], at: usize) -> usize
    requires { LaidFrom s.now at }
    ensures { RankAt s.now at result }
{
    if at < s.len() {
        wide(s[at]) * 256 + wide(s[at + 6])
    } else {
        NO_RANK
    }
}

// The section that starts at `at` where it has this rank, else an empty part.
pub fn section_at<'a>(s: &'a [u8], at: usize, rank: usize) -> &'a [u8]
    requires { LaidFrom s.now at }
    ensures result_value { result.now ≡ head_if rank (from s.now at) }
    ensures sectioned { Sectioned result.now }
{
    let end = end_at(s, at);
    if rank_at(s, at) == rank {
        &s[at..end]
    } else {
        &s[at..at]
    }
}

// The section that starts at `at` where it is of this table, else an empty part.
pub fn table_at<'a>(s: &'a [u8], at: usize, table: usize) -> &'a [u8]
    requires { LaidFrom s.now at }
    ensures result_value { result.now ≡ leads table (from s.now at) }
    ensures sectioned { Sectioned result.now }
{
    if s.len() <= at {
        return &s[at..at];
    }
    if wide(s[at]) != table {
        return &s[at..at];
    }
    let end = end_at(s, at);
    &s[at..end]
}

// ---- by number and by table

// Where the section of this number starts; the end of the bytes where there is none.
pub fn place_of(s: &[u8], number: usize) -> usize
    requires { laid_out s.now ≡ true }
    ensures { Placed s.now number result }
{
    let mut at = 0;
    while at < s.len() {
        if wide(s[at + 6]) == number {
            return at;
        }
        at = end_at(s, at);
    }
    at
}

// Where the sections from `from` on whose table_id is below `bound` end.
pub fn pass(s: &[u8], from: usize, bound: usize) -> usize
    requires { LaidFrom s.now from }
    ensures { Passed (below_table bound) s.now from result }
{
    let mut at = from;
    while at < s.len() {
        if bound <= wide(s[at]) {
            return at;
        }
        at = end_at(s, at);
    }
    at
}

// The sections of one table of a schedule, an empty part where it has none.
pub fn table_of<'a>(s: &'a [u8], table_id: u8) -> &'a [u8]
    requires { is_schedule s.now ≡ true }
    ensures { result.now ≡ table_in s.now table_id }
{
    let start = pass(s, 0, wide(table_id));
    let end = pass(s, start, wide(table_id) + 1);
    &s[start..end]
}
