// The gate without its slices: its settings, what it holds by value, its answers, and the record of an answer with what it leaves by value. No slice is
// lent here.
#![tactic(auto)]

ghost use Rattle.std.specs.Prelude.{◌≡◌};
ghost use Rattle.counters.specs.Counters.{CanCount};
ghost use Rattle.gate_state.specs.State.{by_sections, by_tables, defaults, said_of, number_of, failure_no, is_sound, begun, refused, failed_by, answer_of, seen_by};

use answers::{Outcome, Refusal};
use counters::Counters;
use offers::Failure;
use ring::{Ring, Seen};
use section::header::ChangeRule;

// How PATs change the watch: not at all; by each changed PAT section, as dvb-si 12.0.1 does; by complete PATs alone.
#[derive(Clone, Copy)]
pub enum Follow {
    Off,
    Sections,
    Tables,
}

impl Follow {
    // Whether each changed PAT section replaces the PIDs of the one before.
    pub fn by_sections(self) -> bool
        ensures { result ≡ by_sections self }
    {
        match self {
            Follow::Off => false,
            Follow::Sections => true,
            Follow::Tables => false,
        }
    }

    // Whether PATs are collected, and a complete one replaces the PIDs of the one before.
    pub fn by_tables(self) -> bool
        ensures { result ≡ by_tables self }
    {
        match self {
            Follow::Off => false,
            Follow::Sections => false,
            Follow::Tables => true,
        }
    }
}

// What a gate is opened with.
#[derive(Clone, Copy)]
pub struct Settings {
    // How many keys are kept; 0 acts as 1.
    pub capacity: u64,
    // Whether a section that repeats what was seen is emitted too.
    pub repeats: bool,
    // How PATs change the watch.
    pub follow: Follow,
    // Whether the eight well-known PIDs are watched.
    pub well_known: bool,
    // By which rule a section with a CRC and no version is found changed: 1 or 2 (`ChangeRule`). A number, since a host can give any.
    pub change_rule: u64,
}

impl Settings {
    pub const CAPACITY: u64 = 65536;

    pub const REPEATS: bool = false;

    pub const FOLLOW: Follow = Follow::Tables;

    pub const WELL_KNOWN: bool = true;

    pub const CHANGE_RULE: u64 = ChangeRule::STORED;

    pub fn by_default() -> Settings
        ensures { result ≡ defaults }
    {
        Settings {
            capacity: Settings::CAPACITY,
            repeats: Settings::REPEATS,
            follow: Settings::FOLLOW,
            well_known: Settings::WELL_KNOWN,
            change_rule: Settings::CHANGE_RULE,
        }
    }
}

#[derive(Clone, Copy)]
pub struct Gate {
    pub ring: Ring,
    pub repeats: bool,
    pub follow: Follow,
    pub change_rule: u64,
}

// What an offer answers: 1, 2, 31 or 3 with what tells it, or a refusal.
#[derive(Clone, Copy)]
pub enum Answer {
    Emitted,
    Suppressed,
    Failed(Failure),
    Refused(Refusal),
}

impl Answer {
    pub fn number(self) -> u8
        ensures { result ≡ number_of (said_of self) }
    {
        match self {
            Answer::Emitted => 1,
            Answer::Suppressed => 2,
            Answer::Failed(failure) => failure_number(failure),
            Answer::Refused(refusal) => refusal.number(),
        }
    }

    // 1 or 2: the section is sound.
    pub fn is_sound(self) -> bool
        ensures { result ≡ is_sound self }
    {
        match self {
            Answer::Emitted => true,
            Answer::Suppressed => true,
            Answer::Failed(_) => false,
            Answer::Refused(_) => false,
        }
    }
}

fn failure_number(failure: Failure) -> u8
    ensures { result ≡ failure_no failure }
{
    match failure {
        Failure::TooShort(_) => 31,
        Failure::Mismatch(_, _) => 3,
    }
}

#[derive(Clone, Copy)]
pub struct Offered {
    pub answer: Answer,
    pub gate: Gate,
    pub counters: Counters,
}

#[derive(Clone, Copy)]
pub struct Opened {
    pub answer: Outcome,
    pub gate: Gate,
    pub counters: Counters,
}

// An answer of opening, with the gate that was asked for.
pub fn begin(answer: Outcome, settings: Settings) -> Opened
    ensures { result ≡ begun answer settings }
{
    let follow = settings.follow;
    Opened {
        answer: answer,
        gate: Gate {
            ring: Ring {
                capacity: settings.capacity,
                used: 0,
                first: 0,
            },
            repeats: settings.repeats,
            follow: follow,
            change_rule: settings.change_rule,
        },
        counters: counters::fresh(),
    }
}

// A refusal leaves the gate and its counters as they were.
pub fn refuse(refusal: Refusal, gate: Gate, counters: Counters) -> Offered
    ensures { result ≡ refused refusal gate counters }
{
    Offered {
        answer: Answer::Refused(refusal),
        gate: gate,
        counters: counters,
    }
}

// 31 or 3: one more section and one more CRC failure of this kind, and nothing else.
pub fn fail(failure: Failure, gate: Gate, counters: Counters) -> Offered
    requires { CanCount counters }
    ensures { result ≡ failed_by failure gate counters }
{
    Offered {
        answer: Answer::Failed(failure),
        gate: gate,
        counters: counters::failed(counters, failure.is_short()),
    }
}

fn answered(emits: bool) -> Answer
    ensures { result ≡ answer_of emits }
{
    if emits {
        Answer::Emitted
    } else {
        Answer::Suppressed
    }
}

// The answer to a section that the ring has seen: changed, or repeats on, is emitted.
pub fn tell(gate: Gate, counters: Counters, seen: Seen) -> Offered
    requires { CanCount counters }
    ensures { result ≡ seen_by gate counters seen }
{
    let emits = seen.changed | gate.repeats;
    let ring = seen.ring;
    let follow = gate.follow;
    Offered {
        answer: answered(emits),
        gate: Gate {
            ring: ring,
            repeats: gate.repeats,
            follow: follow,
            change_rule: gate.change_rule,
        },
        counters: counters::counted(counters, emits, seen.evicted),
    }
}
