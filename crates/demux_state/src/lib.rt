// The packet layer without its slices (docs/RULES.md, "Packets"): what a packet answers, the record of an answer with what it leaves by value, the counts that a
// packet moves, and whether a counter is near its end. No slice is lent here.
#![tactic(auto)]

ghost use Rattle.std.specs.Prelude.{◌≡◌, false};
ghost use Rattle.demux_state.specs.State.{said_of, number_of, finished_of, any_near, near_end, Spares, packet_counted, malformed_counted, CanFeed};

use answers::Refusal;
use counters::Counters;
use gate_state::Gate;
use streams::Streams;

// What a packet answers: it was taken, and finished so many sections (29); it is malformed (30); its PID needs a section buffer and none is free (43); or a
// refusal that counts nothing.
#[derive(Clone, Copy)]
pub enum Answer {
    Taken(usize),
    Malformed,
    NoBuffer,
    Refused(Refusal),
}

impl Answer {
    pub fn number(self) -> u8
        ensures { result ≡ number_of (said_of self) }
    {
        match self {
            Answer::Taken(_) => 29,
            Answer::Malformed => 30,
            Answer::NoBuffer => 43,
            Answer::Refused(refusal) => refusal.number(),
        }
    }

    // How many sections the packet finished: as many places tell of one.
    pub fn finished(self) -> usize
        ensures { result ≡ finished_of (said_of self) }
    {
        match self {
            Answer::Taken(n) => n,
            Answer::Malformed => 0,
            Answer::NoBuffer => 0,
            Answer::Refused(_) => 0,
        }
    }
}

#[derive(Clone, Copy)]
pub struct Fed {
    pub answer: Answer,
    pub gate: Gate,
    pub counters: Counters,
    pub streams: Streams,
}

// ---- 11

// The first number that is within 64 of the largest: a packet finishes fewer than 64 sections, and each moves a counter by at most 1.
const NEAR: u64 = 18446744073709551551;

// One of the gate's counters.
fn any_near(c: Counters) -> bool
    ensures { result ≡ any_near c }
{
    (NEAR <= c.completed)
        | (NEAR <= c.emitted)
        | (NEAR <= c.suppressed)
        | (NEAR <= c.crc_failures)
        | (NEAR <= c.short_sections)
        | (NEAR <= c.crc_mismatches)
        | (NEAR <= c.evictions)
}

// One of the gate's, the streams' two, or `pats`, the count of PAT sets that left their store; 0 where none are collected. Where none is near its end, each has
// room for 64 more.
pub fn near_end(c: Counters, s: Streams, pats: u64) -> bool
    ensures value { result ≡ near_end c s pats }
    ensures spares { result ≡ false → Spares c s pats }
{
    any_near(c) | (NEAR <= s.packets) | (NEAR <= s.malformed) | (NEAR <= pats)
}

// ---- the counts of a packet

// One more packet.
pub fn count(s: Streams) -> Streams
    requires { CanFeed s }
    ensures { result ≡ packet_counted s }
{
    Streams {
        count: s.count,
        packets: s.packets + 1,
        malformed: s.malformed,
    }
}

// One more, and it is malformed.
pub fn count_malformed(s: Streams) -> Streams
    requires { CanFeed s }
    ensures { result ≡ malformed_counted s }
{
    Streams {
        count: s.count,
        packets: s.packets + 1,
        malformed: s.malformed + 1,
    }
}
