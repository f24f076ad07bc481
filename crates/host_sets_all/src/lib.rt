// Many sections in one call of the set collector, for a host in another language, which keeps a collector as plain words: what the words hold is taken
// apart, the one call is made, and what it leaves is written back. Every content of the words and every list has one answer.
#![tactic(auto)]

ghost use Rattle.std.specs.Prelude.{◌≡◌};
ghost use Rattle.host_words.specs.Answers.{pushes};
ghost use Rattle.host_sets.specs.Calls.{sets_left};
ghost use Rattle.host_sets_all.specs.Calls.{tells_all, all_left, sets_pushed_all};

use sets_all::AllAnswer;
use sets_settle::Pushed;
use store::Sets;

// Writes what the pushes left as one push does, and gives the answer's number. 42 leaves the words as they were.
fn write_told(sets: &mut [u64; 6], row: &mut [u64; 1], answer: AllAnswer, left: Sets) -> u8
    ensures { pushes result sets.new row.new ≡ tells_all answer left sets.old row.old }
{
    match answer {
        AllAnswer::Pushed(answer) => {
            host_sets_words::write_pushed(sets, row, Pushed { answer, sets: left })
        }
        AllAnswer::TooLong => 42,
    }
}

// Offers the sections of a list one after another, until one answers something else than 4: what that one answered, and 5 writes the set's row into `row`.
// How many bytes of the list were taken is written into `taken`, by every answer: 0 where the list or the store is refused before anything is pushed.
pub fn push_all(
    sets: &mut [u64; 6],
    heads: &mut [u64],
    slots: &mut [u32],
    cells: &mut [u8],
    list: &[u8],
    row: &mut [u64; 1],
    taken: &mut [u64; 1],
) -> u8
    ensures { all_left (sets_left result sets.new heads.new slots.new cells.new row.new) taken.new ≡ sets_pushed_all sets.old heads.old slots.old cells.old list.now row.old }
{
    let before = host_sets_words::sets(sets);
    let pushed = sets_all::push_all(before, heads, slots, cells, list);
    let answer = pushed.answer;
    *taken = [pushed.taken as u64];
    write_told(sets, row, answer, pushed.sets)
}
