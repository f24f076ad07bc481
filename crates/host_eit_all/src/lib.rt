// Many sections in one call of the EIT collector, for a host in another language, which keeps a collector as plain words: what the words hold is taken
// apart, the one call is made, and what it leaves is written back. Every content of the words and every list has one answer.
#![tactic(auto)]

ghost use Rattle.std.specs.Prelude.{◌≡◌};
ghost use Rattle.host_words.specs.Answers.{pushes};
ghost use Rattle.host_eit.specs.Calls.{eit_left};
ghost use Rattle.host_eit_all.specs.Calls.{tells_all, all_left, eit_pushed_all};

use eit_each::AllAnswer;
use eit_state::{Eit, Pushed};

// Writes what the pushes left as one push does, and gives the answer's number. 42 leaves the words as they were.
fn write_told(eit: &mut [u64; 8], row: &mut [u64; 1], answer: AllAnswer, left: Eit) -> u8
    ensures { pushes result eit.new row.new ≡ tells_all answer left eit.old row.old }
{
    match answer {
        AllAnswer::Pushed(answer) => {
            host_eit_words::write_pushed(eit, row, Pushed { answer, eit: left })
        }
        AllAnswer::TooLong => 42,
    }
}

// Offers the sections of a list one after another, until one answers something else than 4: what that one answered, and 5 writes the set's row into `row`, 6 the schedule's.
// How many bytes of the list were taken is written into `taken`, by every answer: 0 where the list or the store is refused before anything is pushed.
pub fn push_all(
    eit: &mut [u64; 8],
    heads: &mut [u64],
    slots: &mut [u32],
    cells: &mut [u8],
    schedule_heads: &mut [u64],
    units: &mut [u32],
    list: &[u8],
    row: &mut [u64; 1],
    taken: &mut [u64; 1],
) -> u8
    ensures { all_left (eit_left result eit.new heads.new slots.new cells.new schedule_heads.new units.new row.new) taken.new ≡ eit_pushed_all eit.old heads.old slots.old cells.old schedule_heads.old units.old list.now row.old }
{
    let before = host_eit_words::eit(eit);
    let pushed = eit_all::push_all(before, heads, slots, cells, schedule_heads, units, list);
    let answer = pushed.answer;
    *taken = [pushed.taken as u64];
    write_told(eit, row, answer, pushed.eit)
}
