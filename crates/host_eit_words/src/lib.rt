// The eight words of an EIT collector: 0 limit, 1 size, 2 count, 3 used, 4 evictions, 5 schedules, 6 schedule_evictions, 7 clock; the word of a
// row that goes out; and the seven words of a filter: 0 pid, 1 kind, 2 service_id, 3 transport_stream_id, 4 original_network_id, 5 current_next, 6 input.
#![tactic(auto)]

ghost use Rattle.std.specs.Prelude.{◌≡◌};
ghost use Rattle.host_words.specs.Answers.{words, pushes};
ghost use Rattle.host_eit_words.specs.Words.{eit_of, words_of, words_opened, words_after, row_by, tells_opened, tells_pushed, tells_turned, wanted_of, wanted_pid_of, filter_of};

use answers::{Numbered, Outcome};
use eit_drop::{Filter, WantedPid};
use eit_state::{Eit, PushAnswer, Pushed, Turned};
use host_words::pids;
use store::Sets;

// A field of a filter that is free: all 64 bits set.
const FREE: u64 = 18446744073709551615;

pub fn eit(words: &[u64; 8]) -> Eit
    ensures { result ≡ eit_of words.now }
{
    let sets = Sets {
        limit: words[0] as usize,
        size: words[1] as usize,
        count: words[2] as usize,
        used: words[3] as usize,
        evictions: words[4],
        clock: words[7],
    };
    Eit {
        sets,
        schedules: words[5] as usize,
        schedule_evictions: words[6],
    }
}

// All eight words.
fn write(words: &mut [u64; 8], eit: Eit)
    ensures { words.new ≡ words_of eit }
{
    let sets = eit.sets;
    *words = [
        sets.limit as u64,
        sets.size as u64,
        sets.count as u64,
        sets.used as u64,
        sets.evictions,
        eit.schedules as u64,
        eit.schedule_evictions,
        sets.clock,
    ];
}

// A collector that was opened writes all eight; a refused opening none.
fn write_where(words: &mut [u64; 8], answer: Outcome, eit: Eit)
    ensures { words.new ≡ words_opened answer eit words.old }
{
    match answer {
        Ok(()) => write(words, eit),
        Err(_) => {}
    }
}

// The counts: no call but opening changes the settings.
fn write_counts(words: &mut [u64; 8], eit: Eit)
    ensures { words.new ≡ words_after words.old eit }
{
    let sets = eit.sets;
    *words = [
        words[0],
        words[1],
        words[2],
        sets.used as u64,
        sets.evictions,
        eit.schedules as u64,
        eit.schedule_evictions,
        sets.clock,
    ];
}

// The row of a set or a schedule that goes out. Any other answer leaves the word as it was.
fn write_row(row: &mut [u64; 1], answer: PushAnswer)
    ensures { row.new ≡ row_by answer row.old }
{
    match answer {
        PushAnswer::Nothing => {}
        PushAnswer::Set(i) => *row = [i as u64],
        PushAnswer::Schedule(k) => *row = [k as u64],
        PushAnswer::Refused(_) => {}
    }
}

// Writes what an opening leaves in the words, and gives its number.
pub fn write_opened(eit: &mut [u64; 8], opened: Turned) -> u8
    ensures { words result eit.new ≡ tells_opened opened eit.old }
{
    let answer = opened.answer;
    write_where(eit, answer, opened.eit);
    answer.number()
}

// Writes what a push leaves in the words, and gives its number.
pub fn write_pushed(eit: &mut [u64; 8], row: &mut [u64; 1], pushed: Pushed) -> u8
    ensures { pushes result eit.new row.new ≡ tells_pushed pushed eit.old row.old }
{
    let answer = pushed.answer;
    write_counts(eit, pushed.eit);
    write_row(row, answer);
    answer.number()
}

// Writes what a clearing or a drop leaves in the words, and gives its number.
pub fn write_turned(eit: &mut [u64; 8], turned: Turned) -> u8
    ensures { words result eit.new ≡ tells_turned turned eit.old }
{
    let answer = turned.answer;
    write_counts(eit, turned.eit);
    answer.number()
}

fn wanted(word: u64) -> Option<u64>
    ensures { result ≡ wanted_of word }
{
    if word == FREE { None } else { Some(word) }
}

// The PID of a filter: free, 0xFFFFFFFF for "exactly none", which a drop refuses (41), or exactly that one.
fn wanted_pid(word: u64) -> WantedPid
    ensures { result ≡ wanted_pid_of word }
{
    if word == FREE {
        return WantedPid::Any;
    }
    if word == 0xFFFF_FFFF {
        return WantedPid::Without;
    }
    WantedPid::Exactly(pids::narrow(word))
}

pub fn filter(words: &[u64; 7]) -> Filter
    ensures { result ≡ filter_of words.now }
{
    Filter {
        pid: wanted_pid(words[0]),
        kind: wanted(words[1]),
        service_id: wanted(words[2]),
        transport_stream_id: wanted(words[3]),
        original_network_id: wanted(words[4]),
        current_next: wanted(words[5]),
        input: wanted(words[6]),
    }
}
