// Compares two guides (docs/RULES.md, "Compared guides"): two sets of sections, or two schedules, each as its sections by rising number in its own
// lent bytes, its PID beside them. Says where they differ, and gives the bytes of a section that one side alone holds. Every call takes any bytes
// and has one answer for them; a refusal leaves the lent list and words as they were.
#![tactic(auto)]

use laid::NoWord;
use rows::Key;

mod inner;

ghost use Rattle.std.specs.Prelude.{◌≡◌, ◌/◌, length};
ghost use Rattle.laid.specs.Laid.{pid_word};
ghost use Rattle.guides.specs.Store.{compare_no, held_no, answer_of, both_words, same_sides, set_sides, schedule_sides, refused};
ghost use Rattle.guides.specs.Store.{compared, listed, compared_schedules, listed_schedules, tables_of, set_or_empty, held_by, section_of, table_part};

// The words of an entry of the list: table_id, section number, kind, place.
pub const ENTRY_WORDS: usize = 4;

// What a comparison answers: 8 they differ, 9 they do not; 10, 41, 12, 33 and 34.
#[derive(Clone, Copy)]
pub enum CompareAnswer {
    Differ,
    Same,
    NotSets,
    NoPid,
    BadPid,
    OtherKey,
    NoRoom,
}

// The answer, how many entries there are, and whether versions and last numbers agree. A refusal tells none of it but 34, which is a matter of room.
#[derive(Clone, Copy)]
pub struct Compared {
    pub answer: CompareAnswer,
    pub count: usize,
    pub versions: bool,
    pub lasts: bool,
}

// What a question for one section answers: 8 exactly one side holds it, 9 both or none, 10.
#[derive(Clone, Copy)]
pub enum HeldAnswer {
    One,
    NotOne,
    NotSets,
}

// With 8: the side, 1 or 2, and where the section stands in its bytes.
#[derive(Clone, Copy)]
pub struct Holder {
    pub answer: HeldAnswer,
    pub side: u32,
    pub start: usize,
    pub length: usize,
}

// What may be amiss with two sides before their sections are looked at: 10, 41, 12, 33.
#[derive(Clone, Copy)]
pub enum Amiss {
    NotSets,
    NoPid,
    BadPid,
    OtherKey,
}

impl Amiss {
    fn answer(self) -> CompareAnswer
        ensures { result ≡ answer_of self }
    {
        match self {
            Amiss::NotSets => CompareAnswer::NotSets,
            Amiss::NoPid => CompareAnswer::NoPid,
            Amiss::BadPid => CompareAnswer::BadPid,
            Amiss::OtherKey => CompareAnswer::OtherKey,
        }
    }
}

impl CompareAnswer {
    pub fn number(self) -> u8
        ensures { result ≡ compare_no self }
    {
        match self {
            CompareAnswer::Differ => 8,
            CompareAnswer::Same => 9,
            CompareAnswer::NotSets => 10,
            CompareAnswer::NoPid => 41,
            CompareAnswer::BadPid => 12,
            CompareAnswer::OtherKey => 33,
            CompareAnswer::NoRoom => 34,
        }
    }
}

impl HeldAnswer {
    pub fn number(self) -> u8
        ensures { result ≡ held_no self }
    {
        match self {
            HeldAnswer::One => 8,
            HeldAnswer::NotOne => 9,
            HeldAnswer::NotSets => 10,
        }
    }
}

// ---- the calls

// Compares two sets. The list has an entry for each number that one side alone holds, or both with other bytes, by rising number.
pub fn compare(
    first: &[u8],
    first_pid: Option<u16>,
    second: &[u8],
    second_pid: Option<u16>,
    list: &mut [u32],
) -> Compared
    ensures value { result ≡ compared first.now first_pid second.now second_pid (length list.old / 4) }
    ensures list_after { list.new ≡ listed first.now first_pid second.now second_pid list.old }
{
    match set_sides(first, first_pid, second, second_pid) {
        Err(amiss) => refused(amiss),
        Ok(()) => inner::compare_sets(first, second, list),
    }
}

// Compares two schedules, table by table. Word t of `tables` is of the kind's table t: 0 no side holds it, 1 the first alone, 2 the second alone, 3 both;
// 4 more where both hold it and versions differ, 8 more where last numbers differ.
pub fn compare_schedules(
    first: &[u8],
    first_pid: Option<u16>,
    second: &[u8],
    second_pid: Option<u16>,
    tables: &mut [u32; 16],
    list: &mut [u32],
) -> Compared
    ensures value { result ≡ compared_schedules first.now first_pid second.now second_pid (length list.old / 4) }
    ensures tables_after { tables.new ≡ tables_of first.now first_pid second.now second_pid (length list.old / 4) tables.old }
    ensures list_after { list.new ≡ listed_schedules first.now first_pid second.now second_pid list.old }
{
    match schedule_sides(first, first_pid, second, second_pid) {
        Err(amiss) => refused(amiss),
        Ok(()) => inner::compare_tables(first, second, tables, list),
    }
}

// Which side alone holds the section of this number, and where. Both are a set or no bytes: of a table that a schedule has not, there are none. Keys are
// not compared.
pub fn held(first: &[u8], second: &[u8], number: usize) -> Holder
    ensures { result ≡ held_by first.now second.now number }
{
    if set_or_empty(first) & set_or_empty(second) {
        inner::held_by(first, second, number)
    } else {
        inner::held_not(HeldAnswer::NotSets)
    }
}

// The bytes of that section, from whichever side holds it; an empty part where `held` does not answer 8.
pub fn section_of<'a>(first: &'a [u8], second: &'a [u8], number: usize) -> &'a [u8]
    ensures { result.now ≡ section_of first.now second.now number }
{
    let h = held(first, second, number);
    let start = h.start;
    let size = h.length;
    if h.side == 1 {
        return cells::part(first, start, size);
    }
    cells::part(second, start, size)
}

// The sections of one table of a schedule: empty where it has none, or where the bytes are no schedule.
pub fn table_part<'a>(schedule: &'a [u8], table_id: u8) -> &'a [u8]
    ensures { result.now ≡ table_part schedule.now table_id }
{
    if laid::is_schedule(schedule) {
        laid::table_of(schedule, table_id)
    } else {
        &schedule[0..0]
    }
}

// ---- what is asked of both sides

fn set_sides(
    first: &[u8],
    first_pid: Option<u16>,
    second: &[u8],
    second_pid: Option<u16>,
) -> Result<(), Amiss>
    ensures { result ≡ set_sides first.now first_pid second.now second_pid }
{
    if !(laid::is_set(first) & laid::is_set(second)) {
        return Err(Amiss::NotSets);
    }
    let (p, q) = both_words(first_pid, second_pid)?;
    keyed(laid::key_in(p, first), laid::key_in(q, second))
}

fn schedule_sides(
    first: &[u8],
    first_pid: Option<u16>,
    second: &[u8],
    second_pid: Option<u16>,
) -> Result<(), Amiss>
    ensures { result ≡ schedule_sides first.now first_pid second.now second_pid }
{
    if !(laid::is_schedule(first) & laid::is_schedule(second)) {
        return Err(Amiss::NotSets);
    }
    let (p, q) = both_words(first_pid, second_pid)?;
    keyed(
        laid::schedule_key_in(p, first),
        laid::schedule_key_in(q, second),
    )
}

// The PID words of both sides: 41 where one of them has no PID, whichever it is, then 12.
fn both_words(first: Option<u16>, second: Option<u16>) -> Result<(u64, u64), Amiss>
    ensures { result ≡ both_words (pid_word first) (pid_word second) }
{
    match (laid::pid_word(first), laid::pid_word(second)) {
        (Ok(p), Ok(q)) => Ok((p, q)),
        (Err(NoWord::NoPid), _) => Err(Amiss::NoPid),
        (_, Err(NoWord::NoPid)) => Err(Amiss::NoPid),
        _ => Err(Amiss::BadPid),
    }
}

fn keyed(first: Key, second: Key) -> Result<(), Amiss>
    ensures { result ≡ same_sides first second }
{
    if rows::same_key(first, second) {
        Ok(())
    } else {
        Err(Amiss::OtherKey)
    }
}

fn set_or_empty(s: &[u8]) -> bool
    ensures { result ≡ set_or_empty s.now }
{
    (s.len() == 0) | laid::is_set(s)
}

fn refused(amiss: Amiss) -> Compared
    ensures { result ≡ refused (answer_of amiss) }
{
    Compared {
        answer: amiss.answer(),
        count: 0,
        versions: false,
        lasts: false,
    }
}
