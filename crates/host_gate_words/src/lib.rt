// The thirteen words of a gate: 0 capacity, 1 repeats, 2 follow (0 off, 2 each changed PAT section, any other complete PATs), 3 change_rule, 4 used, 5 first, 6 completed, 7 emitted, 8 suppressed,
// 9 crc_failures, 10 short_sections, 11 crc_mismatches, 12 evictions. And the three of a failure: 0 length, 1 stored, 2 worked.
#![tactic(auto)]

ghost use Rattle.std.specs.Prelude.{◌≡◌, []};
ghost use Rattle.gate_state.specs.State.{said_of, failure_said};
ghost use Rattle.host_words.specs.Answers.{words};
ghost use Rattle.host_gate_words.specs.Words.{asks_for_known, follow_asked, follow_in, follow_word, settings_of, gate_of, counters_of, held_in, bit, words_of, words_after, words_opened, failure_after, told, tells_opened, tells_offered};

use answers::{Numbered, Outcome};
use counters::Counters;
use gate_state::{Answer, Follow, Gate, Offered, Opened, Settings};
use offers::Failure;
use ring::Ring;

// What the words hold.
#[derive(Clone, Copy)]
pub struct Held {
    pub gate: Gate,
    pub counters: Counters,
}

// Settings as bits: 1 repeats, 2 follow, 4 well-known PIDs, 8 with 2 each changed PAT section. Other bits are not looked at. The change rule is a number of its own.
pub fn settings(capacity: u64, bits: u32, change_rule: u64) -> Settings
    ensures { result ≡ settings_of capacity bits change_rule }
{
    Settings {
        capacity: capacity,
        repeats: bits % 2 == 1,
        follow: follow_asked(bits),
        well_known: well_known(bits),
        change_rule: change_rule,
    }
}

// Whether the bits ask for the well-known PIDs, the one setting of a watch.
pub fn well_known(bits: u32) -> bool
    ensures { result ≡ asks_for_known bits }
{
    bits / 4 % 2 == 1
}

// How PATs are to be followed: bit 8 without bit 2 asks for nothing.
fn follow_asked(bits: u32) -> Follow
    ensures { result ≡ follow_asked bits }
{
    if bits / 2 % 2 != 1 {
        return Follow::Off;
    }
    if bits / 8 % 2 == 1 {
        Follow::Sections
    } else {
        Follow::Tables
    }
}

// What the word `follow` says, whatever it is.
fn follow_in(word: u64) -> Follow
    ensures { result ≡ follow_in word }
{
    if word == 0 {
        return Follow::Off;
    }
    if word == 2 {
        Follow::Sections
    } else {
        Follow::Tables
    }
}

// The word that says it.
fn follow_word(follow: Follow) -> u64
    ensures { result ≡ follow_word follow }
{
    match follow {
        Follow::Off => 0,
        Follow::Sections => 2,
        Follow::Tables => 1,
    }
}

fn gate(words: &[u64; 13]) -> Gate
    ensures { result ≡ gate_of words.now }
{
    Gate {
        ring: Ring {
            capacity: words[0],
            used: words[4] as usize,
            first: words[5] as usize,
        },
        repeats: words[1] != 0,
        follow: follow_in(words[2]),
        change_rule: words[3],
    }
}

fn counters(words: &[u64; 13]) -> Counters
    ensures { result ≡ counters_of words.now }
{
    Counters {
        completed: words[6],
        emitted: words[7],
        suppressed: words[8],
        crc_failures: words[9],
        short_sections: words[10],
        crc_mismatches: words[11],
        evictions: words[12],
    }
}

pub fn read(words: &[u64; 13]) -> Held
    ensures { result ≡ held_in words.now }
{
    Held {
        gate: gate(words),
        counters: counters(words),
    }
}

// 1 for a setting that is on.
fn word(on: bool) -> u64
    ensures { result ≡ bit on }
{
    if on { 1 } else { 0 }
}

// All thirteen words.
fn write(words: &mut [u64; 13], gate: Gate, counters: Counters)
    ensures { words.new ≡ words_of gate counters }
{
    let ring = gate.ring;
    let follow = gate.follow;
    *words = [
        ring.capacity,
        word(gate.repeats),
        follow_word(follow),
        gate.change_rule,
        ring.used as u64,
        ring.first as u64,
        counters.completed,
        counters.emitted,
        counters.suppressed,
        counters.crc_failures,
        counters.short_sections,
        counters.crc_mismatches,
        counters.evictions,
    ];
}

// A gate that was opened writes all thirteen; a refused opening none.
fn write_where(words: &mut [u64; 13], answer: Outcome, gate: Gate, counters: Counters)
    ensures { words.new ≡ words_opened answer gate counters words.old }
{
    match answer {
        Ok(()) => write(words, gate, counters),
        Err(_) => {}
    }
}

// The rows in use and the counters: an offer never changes the settings.
pub fn write_counts(words: &mut [u64; 13], gate: Gate, counters: Counters)
    ensures { words.new ≡ words_after words.old gate counters }
{
    let ring = gate.ring;
    *words = [
        words[0],
        words[1],
        words[2],
        words[3],
        ring.used as u64,
        ring.first as u64,
        counters.completed,
        counters.emitted,
        counters.suppressed,
        counters.crc_failures,
        counters.short_sections,
        counters.crc_mismatches,
        counters.evictions,
    ];
}

// Writes what an opening leaves in the words, and gives its number.
pub fn write_opened(gate: &mut [u64; 13], opened: Opened) -> u8
    ensures { words result gate.new ≡ tells_opened opened gate.old }
{
    let answer = opened.answer;
    write_where(gate, answer, opened.gate, opened.counters);
    answer.number()
}

// What a section failed by: its length (31), or the CRC stored and the one worked out (3).
fn failure_words(failure: Failure) -> [u64; 3]
    ensures { result ≡ failure_after (failure_said failure) [] }
{
    match failure {
        Failure::TooShort(length) => [length as u64, 0, 0],
        Failure::Mismatch(stored, worked) => [0, stored as u64, worked as u64],
    }
}

// A failure tells what it failed by; every other answer leaves the words as they were.
fn write_failure(words: &mut [u64; 3], answer: Answer)
    ensures { words.new ≡ failure_after (said_of answer) words.old }
{
    match answer {
        Answer::Emitted => {}
        Answer::Suppressed => {}
        Answer::Failed(failure) => *words = failure_words(failure),
        Answer::Refused(_) => {}
    }
}

// Writes what an offer leaves in the words, and gives its number.
pub fn write_offered(gate: &mut [u64; 13], failure: &mut [u64; 3], offered: Offered) -> u8
    ensures { told result gate.new failure.new ≡ tells_offered offered gate.old failure.old }
{
    let answer = offered.answer;
    write_counts(gate, offered.gate, offered.counters);
    write_failure(failure, answer);
    answer.number()
}
