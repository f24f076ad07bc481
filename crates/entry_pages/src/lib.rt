// The entries of sets and schedules that go out, printed page by page, and the sections that are refused: what `events` and `tables` share.
#![tactic(auto)]

ghost use Rattle.std.specs.Prelude.{◌≡◌, ◌≤◌, ◌<◌, length, ◌+◌, min, IfErr};

use answers::Refusal;
use entry_lines::heads;
use entry_lines::heads::Totals;
use std::io;
use std::io::Write;

// The entries of a page, and the pages that the largest set takes: 256 sections of at most 2,040 entries.
pub const PAGE: usize = 2048;

pub const PAGES: usize = 256;

// What listing a page told: how many entries there are in all, the answer's number, and where the listing ended early.
#[derive(Clone, Copy)]
pub struct Page {
    pub count: usize,
    pub answer: u8,
    pub section: usize,
    pub place: usize,
}

// One more; a count at its end stays.
pub fn count(n: &mut u64)
    ensures { n.new ≡ min (n.old + 1) 18446744073709551615 }
{
    *n = n.saturating_add(1);
}

fn wide(x: u32) -> usize
    ensures { (result ≡ x) × (result < 4294967296) }
{
    x as usize
}

// An event by its words, with the digits of its time and its duration as they were sent.
fn say_event(stdout: &mut impl Write, words: &[u32], cells: &[u8]) -> io::Result<()>
    requires { length words.now ≡ 12 }
{
    let digits = cells::part(cells, wide(words[2]) + 4, 6);
    if digits.len() == 6 {
        entry_lines::say_event(stdout, words, digits)?;
    }
    Ok(())
}

fn say_descriptor(stdout: &mut impl Write, words: &[u32], cells: &[u8]) -> io::Result<()>
    requires { length words.now ≡ 12 }
{
    let bytes = cells::part(cells, wide(words[2]) + 2, wide(words[4]));
    entry_lines::say_descriptor(stdout, (words[3] % 256) as u8, bytes)
}

// An entry by its kind.
fn say_entry(
    stdout: &mut impl Write,
    words: &[u32],
    cells: &[u8],
    totals: &mut Totals,
) -> io::Result<()>
    requires { length words.now ≡ 12 }
{
    match words[0] {
        1 => {
            say_event(stdout, words, cells)?;
            count(&mut totals.events);
        }
        3 => {
            entry_lines::say_stream(stdout, words)?;
            count(&mut totals.streams);
        }
        4 => {
            entry_lines::say_service(stdout, words)?;
            count(&mut totals.services);
        }
        _ => {
            say_descriptor(stdout, words, cells)?;
            count(&mut totals.descriptors);
        }
    }
    Ok(())
}

// The first n entries of the list.
pub fn say_page(
    stdout: &mut impl Write,
    list: &[u32],
    n: usize,
    cells: &[u8],
    totals: &mut Totals,
) -> io::Result<()>
    requires { (length list.now ≡ 24576) × (n ≤ 2048) }
    ensures { IfErr result (λ e. totals.new ≡ totals.old) }
{
    let mut told = *totals;
    for words in list[..n * entry_words::WORDS].chunks_exact(entry_words::WORDS) {
        say_entry(stdout, words, cells, &mut told)?;
    }
    *totals = told;
    Ok(())
}

// How many entries of `count` stand on the page that passes over `skip`.
pub fn on_page(count: usize, skip: usize) -> usize
    ensures { result ≤ 2048 }
{
    if count <= skip {
        return 0;
    }
    if count - skip < PAGE {
        return count - skip;
    }
    PAGE
}

// The line of a listing that ended early: any answer but 8 and 9.
pub fn say_end(stdout: &mut impl Write, page: Page) -> io::Result<()> {
    if 9 < page.answer {
        heads::say_broken(stdout, page.answer, page.section, page.place)?;
    }
    Ok(())
}

// All entries of a listing, page by page. `show` puts those behind the first so many into the list.
pub fn say_pages<F: Fn(usize, &mut [u32]) -> Page>(
    stdout: &mut impl Write,
    list: &mut [u32],
    cells: &[u8],
    totals: &mut Totals,
    show: F,
) -> io::Result<()>
    requires listed { length list.old ≡ 24576 }
    requires shown { F.IsAlwaysCallable show }
{
    for number in 0..PAGES {
        let skip = number * PAGE;
        let page = show(skip, list);
        say_page(stdout, list, on_page(page.count, skip), cells, totals)?;
        if page.count <= skip + PAGE {
            return say_end(stdout, page);
        }
    }
    Ok(())
}

// A section that is refused: its line, unless it is one that other tables have.
pub fn tell_refused(
    stdout: &mut impl Write,
    refusal: Refusal,
    pid: u16,
    section: &[u8],
    totals: &mut Totals,
) -> io::Result<()>
    requires { 3 ≤ length section.now }
    ensures { IfErr result (λ e. totals.new ≡ totals.old) }
{
    match refusal {
        Refusal::ShortForm | Refusal::NotEit => {
            count(&mut totals.other);
            return Ok(());
        }
        Refusal::BadPid => heads::say_bad_pid(stdout, pid)?,
        _ => heads::say_refused(stdout, refusal.number(), pid, section[0], section.len())?,
    }
    count(&mut totals.refused);
    Ok(())
}
