// The places, 6 words each, that tell of the sections which a packet finished (docs/RULES.md, "Packets"): words 3 to 5, where the bytes are, are read; words 0
// to 2, what the gate answered, are written.
#![tactic(auto)]

ghost use Rattle.std.specs.Prelude.{◌≡◌, ◌+◌, ◌*◌, ◌<◌, length, take, drop};
ghost use Rattle.gate_state.specs.State.{said_of, failure_said};
ghost use Rattle.demux_places.specs.Places.{place_at, bytes_at, outcome_of, answered};

use gate_state::Answer;
use offers::Failure;

// Where the bytes of a section are: in the packet (0) or in the buffers, the first there, and how many.
#[derive(Clone, Copy)]
pub struct Place {
    pub whence: u64,
    pub first: u64,
    pub size: u64,
}

// An answer as a place tells it: its number, and with 3 the CRC stored and the one worked out.
#[derive(Clone, Copy)]
pub struct Outcome {
    pub answer: u64,
    pub stored: u64,
    pub worked: u64,
}

const PLACE_WORDS: usize = 6;

const IN_PACKET: u64 = 0;

// ---- where a section is

pub fn place_at(places: &[u64], k: usize) -> Place
    requires { k * 6 + 5 < length places.now }
    ensures { result ≡ place_at places.now k }
{
    let at = k * PLACE_WORDS;
    Place {
        whence: places[at + 3],
        first: places[at + 4],
        size: places[at + 5],
    }
}

// The bytes from `first` on, at most `size`.
fn part<'a>(bytes: &'a [u8], first: usize, size: usize) -> &'a [u8]
    ensures { result.now ≡ take size (drop first bytes.now) }
{
    let end = bytes.len();
    if end < first {
        return &bytes[end..end];
    }
    if end - first < size {
        return &bytes[first..end];
    }
    let to = first + size;
    &bytes[first..to]
}

// The bytes of a section.
pub fn section_at<'a>(packet: &'a [u8], buffers: &'a [u8], place: Place) -> &'a [u8]
    ensures { result.now ≡ bytes_at packet.now buffers.now place }
{
    if place.whence == IN_PACKET {
        return part(packet, place.first as usize, place.size as usize);
    }
    part(buffers, place.first as usize, place.size as usize)
}

// ---- what the gate answered

fn failed(failure: Failure) -> Outcome
    ensures { result ≡ outcome_of (failure_said failure) }
{
    match failure {
        Failure::TooShort(_) => Outcome {
            answer: 31,
            stored: 0,
            worked: 0,
        },
        Failure::Mismatch(stored, worked) => Outcome {
            answer: 3,
            stored: stored as u64,
            worked: worked as u64,
        },
    }
}

fn outcome_of(answer: Answer) -> Outcome
    ensures { result ≡ outcome_of (said_of answer) }
{
    match answer {
        Answer::Emitted => Outcome {
            answer: 1,
            stored: 0,
            worked: 0,
        },
        Answer::Suppressed => Outcome {
            answer: 2,
            stored: 0,
            worked: 0,
        },
        Answer::Failed(failure) => failed(failure),
        Answer::Refused(refusal) => Outcome {
            answer: refusal.number() as u64,
            stored: 0,
            worked: 0,
        },
    }
}

// Place k tells the answer.
pub fn tell(places: &mut [u64], k: usize, answer: Answer)
    requires { k * 6 + 5 < length places.old }
    ensures { places.new ≡ answered places.old k (said_of answer) }
{
    let at = k * PLACE_WORDS;
    let told = outcome_of(answer);
    places[at] = told.answer;
    places[at + 1] = told.stored;
    places[at + 2] = told.worked;
}
