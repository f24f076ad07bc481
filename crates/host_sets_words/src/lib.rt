// The six words of a set collector: 0 limit, 1 size, 2 count, 3 used, 4 evictions, 5 clock; and the word of a row that goes out.
#![tactic(auto)]

ghost use Rattle.std.specs.Prelude.{◌≡◌};
ghost use Rattle.host_words.specs.Answers.{words, pushes};
ghost use Rattle.host_sets_words.specs.Words.{sets_of, words_of, words_opened, words_after, row_by, tells_opened, tells_pushed, tells_cleared};

use answers::{Numbered, Outcome};
use sets::{Cleared, Opened};
use sets_settle::{PushAnswer, Pushed};
use store::Sets;

pub fn sets(words: &[u64; 6]) -> Sets
    ensures { result ≡ sets_of words.now }
{
    Sets {
        limit: words[0] as usize,
        size: words[1] as usize,
        count: words[2] as usize,
        used: words[3] as usize,
        evictions: words[4],
        clock: words[5],
    }
}

// All six words.
fn write(words: &mut [u64; 6], sets: Sets)
    ensures { words.new ≡ words_of sets }
{
    *words = [
        sets.limit as u64,
        sets.size as u64,
        sets.count as u64,
        sets.used as u64,
        sets.evictions,
        sets.clock,
    ];
}

// A collector that was opened writes all six; a refused opening none.
fn write_where(words: &mut [u64; 6], answer: Outcome, sets: Sets)
    ensures { words.new ≡ words_opened answer sets words.old }
{
    match answer {
        Ok(()) => write(words, sets),
        Err(_) => {}
    }
}

// The counts: no call but opening changes the settings.
fn write_counts(words: &mut [u64; 6], sets: Sets)
    ensures { words.new ≡ words_after words.old sets }
{
    let used = sets.used as u64;
    *words = [
        words[0],
        words[1],
        words[2],
        used,
        sets.evictions,
        sets.clock,
    ];
}

// The row of a set that goes out. Any other answer leaves the word as it was.
fn write_row(row: &mut [u64; 1], answer: PushAnswer)
    ensures { row.new ≡ row_by answer row.old }
{
    match answer {
        PushAnswer::Nothing => {}
        PushAnswer::Set(i) => *row = [i as u64],
        PushAnswer::Refused(_) => {}
    }
}

// Writes what an opening leaves in the words, and gives its number.
pub fn write_opened(sets: &mut [u64; 6], opened: Opened) -> u8
    ensures { words result sets.new ≡ tells_opened opened sets.old }
{
    let answer = opened.answer;
    write_where(sets, answer, opened.sets);
    answer.number()
}

// Writes what a push leaves in the words, and gives its number.
pub fn write_pushed(sets: &mut [u64; 6], row: &mut [u64; 1], pushed: Pushed) -> u8
    ensures { pushes result sets.new row.new ≡ tells_pushed pushed sets.old row.old }
{
    let answer = pushed.answer;
    write_counts(sets, pushed.sets);
    write_row(row, answer);
    answer.number()
}

// Writes what a clearing leaves in the words, and gives its number.
pub fn write_cleared(sets: &mut [u64; 6], cleared: Cleared) -> u8
    ensures { words result sets.new ≡ tells_cleared cleared sets.old }
{
    let answer = cleared.answer;
    write_counts(sets, cleared.sets);
    answer.number()
}
