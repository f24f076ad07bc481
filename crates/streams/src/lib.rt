// The PID words and the section buffers of one transport stream: 32,768 lent words of 64 bits, four for each PID, and 1 to 8,192 lent buffers of 4,288 bytes.
// Word 0 of a PID is the number of its buffer and 1; the other three are `assemble`'s. Every content of the words is whole: a number past the last buffer is
// none, and a buffer is free exactly when no PID's word 0 names it.
#![tactic(auto)]

ghost use Rattle.std.specs.Prelude.{◌≡◌, ◌≤◌, length};
ghost use Rattle.streams.specs.Store.{opened_of, opening, cleared};

use answers::{Outcome, Refusal};

pub mod inner;

// What is known of a stream beside its words: how many buffers are lent, how many packets came, how many of them were malformed.
#[derive(Clone, Copy)]
pub struct Streams {
    pub count: usize,
    pub packets: u64,
    pub malformed: u64,
}

#[derive(Clone, Copy)]
pub struct Opened {
    pub answer: Outcome,
    pub streams: Streams,
}

impl Streams {
    // How many buffers may be lent: each PID can hold one.
    pub const MOST_BUFFERS: usize = 8192;

    pub const DEFAULT_BUFFERS: usize = 256;
}

// How many words the host lends for the PIDs.
pub const PID_WORDS: usize = 32768;

// Opens the streams of one input: no PID holds a buffer, counts 0. The buffers are not written. A refusal writes nothing, and gives back the count that
// was asked for.
pub fn open(count: usize, pids: &mut [u64], buffers: &[u8]) -> Opened
    ensures { opening result pids.new ≡ opened_of count pids.old (length buffers.now) }
{
    let streams = Streams {
        count,
        packets: 0,
        malformed: 0,
    };
    if inner::are_enough(count, pids.len(), buffers.len()) {
        clear(pids, PID_WORDS);
        return Opened {
            answer: Ok(()),
            streams,
        };
    }
    Opened {
        answer: Err(Refusal::TooLittle),
        streams,
    }
}

// The first n words become 0.
fn clear(pids: &mut [u64], n: usize)
    requires { n ≤ length pids.old }
    ensures { pids.new ≡ cleared n pids.old }
{
    pids[0..n].fill(0);
}
