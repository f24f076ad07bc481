// The comparisons for a host in another language: two sets, two schedules, and the section that one side alone holds. Every content of what is lent has one answer.
#![tactic(auto)]

ghost use Rattle.std.specs.Prelude.{◌≡◌};
ghost use Rattle.host_words.specs.Answers.{words};
ghost use Rattle.host_guides.specs.Calls.{flag, tells_compared, tells_held, comparison, sets_compared, comparisons, schedules_compared, held_by_one};

use guides::{Compared, Holder};

// The numbers of the answers that tell how many entries there are: they differ, they do not, and there was no room. A section that one side holds is told with the first.
const DIFFER: u8 = 8;

const SAME: u8 = 9;

const NO_ROOM: u8 = 34;

fn flag(on: bool) -> u64
    ensures { result ≡ flag on }
{
    if on { 1 } else { 0 }
}

// Writes how many entries there are, and whether versions and last numbers agree; gives the answer's number. 10, 41, 12 and 33 leave the words.
fn write_compared(compared: &mut [u64; 3], told: Compared) -> u8
    ensures { words result compared.new ≡ tells_compared told compared.old }
{
    let answer = told.answer;
    let number = answer.number();
    if (number == DIFFER) | (number == SAME) | (number == NO_ROOM) {
        *compared = [told.count as u64, flag(told.versions), flag(told.lasts)];
    }
    number
}

// Compares two sets: 8, 9, 10, 12, 33, 34 or 41. A PID of 0xFFFFFFFF stands for none, which is refused (41).
pub fn compare(
    first: &[u8],
    first_pid: u32,
    second: &[u8],
    second_pid: u32,
    list: &mut [u32],
    compared: &mut [u64; 3],
) -> u8
    ensures { comparison result compared.new list.new ≡ sets_compared first.now first_pid second.now second_pid list.old compared.old }
{
    let p = host_words::pids::maybe(first_pid);
    let q = host_words::pids::maybe(second_pid);
    let told = guides::compare(first, p, second, q, list);
    write_compared(compared, told)
}

// Compares two schedules, table by table, with a word for each of the kind's 16 tables.
pub fn compare_schedules(
    first: &[u8],
    first_pid: u32,
    second: &[u8],
    second_pid: u32,
    tables: &mut [u32; 16],
    list: &mut [u32],
    compared: &mut [u64; 3],
) -> u8
    ensures { comparisons result compared.new tables.new list.new ≡ schedules_compared first.now first_pid second.now second_pid tables.old list.old compared.old }
{
    let p = host_words::pids::maybe(first_pid);
    let q = host_words::pids::maybe(second_pid);
    let told = guides::compare_schedules(first, p, second, q, tables, list);
    write_compared(compared, told)
}

// Writes the side, 1 or 2, and where the section stands in its bytes; gives the answer's number. 9 and 10 leave the words.
fn write_held(held: &mut [u64; 3], holder: Holder) -> u8
    ensures { words result held.new ≡ tells_held holder held.old }
{
    let answer = holder.answer;
    let number = answer.number();
    if number == DIFFER {
        *held = [
            holder.side as u64,
            holder.start as u64,
            holder.length as u64,
        ];
    }
    number
}

// Which side alone holds the section of this number, and where: 8, 9 or 10. The part crosses as a side, a start and a length, never as a pointer.
pub fn held_by_one(first: &[u8], second: &[u8], number: u64, held: &mut [u64; 3]) -> u8
    ensures { words result held.new ≡ held_by_one first.now second.now number held.old }
{
    let holder = guides::held(first, second, number as usize);
    write_held(held, holder)
}
