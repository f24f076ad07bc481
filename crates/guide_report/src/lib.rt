// What `compare_guides` says of two files: each a PID in two bytes, high byte first, and then its sections to the end. FFFF stands for no PID, which is refused (41).
#![tactic(auto)]

ghost use Rattle.std.specs.Prelude.{◌*◌, ◌≤◌, length, IfOk};

use guide_lines::{
    say, say_count, say_entry, say_number, say_revisions, say_schedule, say_set, say_table,
};
use guides::{CompareAnswer, Compared};
use section::bytes::word;
use std::io;
use std::io::Write;

fn pid_of(pid: u16) -> Option<u16> {
    if pid == 0xFFFF {
        return None;
    }
    Some(pid)
}

fn word_of(x: u8) -> u32 {
    x as u32
}

// The entries that a list of so many words has.
fn entries_in(words: usize, count: usize) -> usize
    ensures { 4 * result ≤ words }
{
    if count < words / 4 { count } else { words / 4 }
}

// The entries from k on that are of this table; answers the number of the first that is not.
fn say_entries<'a>(
    stdout: &mut impl Write,
    first: &'a [u8],
    second: &'a [u8],
    table_id: u32,
    list: &[u32],
    k: usize,
    n: usize,
) -> io::Result<usize>
    requires { (4 * n ≤ length list.now) × (k ≤ n) }
    ensures { IfOk result (λ i. (k ≤ i) × (i ≤ n)) }
{
    for i in k..n {
        if list[4 * i] != table_id {
            return Ok(i);
        }
        say_entry(
            stdout,
            first,
            second,
            list[4 * i + 1],
            list[4 * i + 2],
            list[4 * i + 3],
        )?;
    }
    Ok(n)
}

fn say_refused(stdout: &mut impl Write, number: u8) -> io::Result<()> {
    say(stdout, b"refused ")?;
    say_number(stdout, number as u64)?;
    say(stdout, b"\n")
}

fn say_no_room(stdout: &mut impl Write, count: usize) -> io::Result<()> {
    say(stdout, b"refused 34 ")?;
    say_number(stdout, count as u64)?;
    say(stdout, b"\n")
}

fn say_sets<'a>(
    stdout: &mut impl Write,
    first: &'a [u8],
    pid: u16,
    second: &'a [u8],
    compared: Compared,
    list: &[u32],
) -> io::Result<()> {
    say_set(stdout, pid, first)?;
    if 0 < first.len() {
        let table_id = word_of(first[0]);
        let n = entries_in(list.len(), compared.count);
        say_entries(stdout, first, second, table_id, list, 0, n)?;
    }
    say_count(stdout, compared.count)?;
    say_revisions(stdout, compared.versions, compared.lasts)?;
    say(stdout, b"\n")
}

fn compare_sets<'a>(
    stdout: &mut impl Write,
    first: &'a [u8],
    first_pid: u16,
    second: &'a [u8],
    second_pid: u16,
    list: &mut [u32],
) -> io::Result<()> {
    let p = pid_of(first_pid);
    let q = pid_of(second_pid);
    let compared = guides::compare(first, p, second, q, list);
    let answer = compared.answer;
    match answer {
        CompareAnswer::Differ | CompareAnswer::Same => {
            say_sets(stdout, first, first_pid, second, compared, list)
        }
        CompareAnswer::NoRoom => say_no_room(stdout, compared.count),
        _ => say_refused(stdout, answer.number()),
    }
}

// The tables in order, each with its entries.
fn say_tables<'a>(
    stdout: &mut impl Write,
    first: &'a [u8],
    second: &'a [u8],
    base: u8,
    tables: &[u32; 16],
    list: &[u32],
    n: usize,
) -> io::Result<()>
    requires { (4 * n ≤ length list.now) × (base ≤ 240) }
{
    let mut k = 0;
    for t in 0..16u8 {
        let table_id = base + t;
        say_table(stdout, table_id, tables[t as usize])?;
        k = say_entries(
            stdout,
            guides::table_part(first, table_id),
            guides::table_part(second, table_id),
            word_of(table_id),
            list,
            k,
            n,
        )?;
    }
    Ok(())
}

fn kind_first(table_id: u8) -> u8
    ensures { result ≤ 240 }
{
    table_id / 16 * 16
}

fn say_schedules<'a>(
    stdout: &mut impl Write,
    first: &'a [u8],
    pid: u16,
    second: &'a [u8],
    compared: Compared,
    tables: &[u32; 16],
    list: &[u32],
) -> io::Result<()> {
    say_schedule(stdout, pid, first)?;
    if 0 < first.len() {
        let base = kind_first(first[0]);
        let n = entries_in(list.len(), compared.count);
        say_tables(stdout, first, second, base, tables, list, n)?;
    }
    say_count(stdout, compared.count)?;
    say(stdout, b"\n")
}

fn compare_schedules<'a>(
    stdout: &mut impl Write,
    first: &'a [u8],
    first_pid: u16,
    second: &'a [u8],
    second_pid: u16,
    list: &mut [u32],
) -> io::Result<()> {
    let mut tables = [0u32; 16];
    let p = pid_of(first_pid);
    let q = pid_of(second_pid);
    let compared = guides::compare_schedules(first, p, second, q, &mut tables, list);
    let answer = compared.answer;
    match answer {
        CompareAnswer::Differ | CompareAnswer::Same => say_schedules(
            stdout, first, first_pid, second, compared, &tables, list,
        ),
        CompareAnswer::NoRoom => say_no_room(stdout, compared.count),
        _ => say_refused(stdout, answer.number()),
    }
}

// Two files: under two bytes one has no sections.
pub fn compare_files<'a>(
    stdout: &mut impl Write,
    schedules: bool,
    first: &'a [u8],
    second: &'a [u8],
    list: &mut [u32],
) -> io::Result<()> {
    if (first.len() < 2) | (second.len() < 2) {
        return say_refused(stdout, 10);
    }
    let p = word(first, 0);
    let q = word(second, 0);
    let a = &first[2..first.len()];
    let b = &second[2..second.len()];
    if schedules {
        compare_schedules(stdout, a, p, b, q, list)
    } else {
        compare_sets(stdout, a, p, b, q, list)
    }
}
