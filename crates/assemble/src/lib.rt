// One packet of a PID over the PID's section buffer: a repeat is ignored, a jump drops the section under way, and what the payload finishes is told in
// the places (ISO/IEC 13818-1, 2.4.3.3 and 2.4.4). The section that was under way and is finished stays at the buffer's front until the next packet, and
// the beginning of the next is put behind it.
#![tactic(auto)]

ghost use Rattle.std.specs.Prelude.{◌≡◌, ◌++◌, ◌<◌, length};
ghost use Rattle.payload.specs.Payload.{front, bytes_of};
ghost use Rattle.assemble.specs.Store.{is_repeat, follows_on, marked, span_in, span_by, ended_told, ended_count, reading, taken_of, places_of, stepped_of, buffer_after, places_after};
ghost use Rattle.assemble.specs.Store.{Fits, Reads, HasFirst};

use packet::Load;
use payload::Span;

// The words of a PID: the number of its buffer and 1 (0: none); the counter of its last packet with a payload, and 16 where that was repeated; where in
// the buffer the bytes under way begin, and how many they are. Every content is whole.
#[derive(Clone, Copy)]
pub struct Words {
    pub number: u64,
    pub counter: u64,
    pub first: u64,
    pub size: u64,
}

// How long the section is that was under way and was finished (0: none was), how many bytes are under way then, how many sections were finished.
#[derive(Clone, Copy)]
pub struct Taken {
    pub ended: usize,
    pub under: usize,
    pub count: usize,
}

#[derive(Clone, Copy)]
pub struct Stepped {
    pub words: Words,
    pub count: usize,
}

// Room for a section of 4,098 bytes and, behind it, for the beginning of the next in the packet that finished it.
pub const BUFFER_BYTES: usize = 4288;

// A section has at most 4,098 bytes, so one that is under way has fewer.
const MOST_UNDER: u64 = 4097;

const IN_BUFFERS: u64 = 1;

// ---- continuity_counter

// The counter is the last one, and that packet was not repeated yet.
fn repeats(fresh: bool, last: u64, counter: u8) -> bool
    ensures { result ≡ is_repeat fresh last counter }
{
    !fresh & (counter as u64 == last % 16) & (last % 32 < 16)
}

fn follows(fresh: bool, last: u64, counter: u8) -> bool
    ensures { result ≡ follows_on fresh last counter }
{
    !fresh & (counter as u64 == (last % 16 + 1) % 16)
}

// A repeat is marked, and nothing else.
fn mark(words: Words, counter: u8) -> Words
    requires { counter < 16 }
    ensures { result ≡ marked words counter }
{
    Words {
        number: words.number,
        counter: counter as u64 + 16,
        first: words.first,
        size: words.size,
    }
}

// ---- the section under way

// The bytes under way, as the words name them: none where they name no bytes of the buffer, or a whole section.
fn span_in(buffer: &[u8], words: Words) -> Span
    requires { length buffer.now ≡ 4288 }
    ensures { result ≡ span_in words buffer.now }
{
    if words.size > MOST_UNDER {
        return Span { first: 0, size: 0 };
    }
    let size = words.size as usize;
    if words.first > (BUFFER_BYTES - size) as u64 {
        return Span { first: 0, size: 0 };
    }
    let first = words.first as usize;
    let end = first + size;
    if payload::whole_in(&buffer[first..end]) != 0 {
        return Span { first: 0, size: 0 };
    }
    Span { first, size }
}

// The bytes that a packet goes on with: none where packets are missing before it.
fn span_by(buffer: &[u8], fresh: bool, words: Words, counter: u8) -> Span
    requires { length buffer.now ≡ 4288 }
    ensures { result ≡ span_by fresh words buffer.now counter }
{
    if follows(fresh, words.counter, counter) {
        return span_in(buffer, words);
    }
    Span { first: 0, size: 0 }
}

// ---- one payload

// The section that was under way, finished, is told in place 0: it stands at the front of its buffer. How many places are used then.
fn tell_ended(places: &mut [u64], number: usize, ended: usize) -> usize
    requires { HasFirst places.old number }
    ensures value { result ≡ ended_count ended }
    ensures places_after { places.new ≡ ended_told places.old number ended }
{
    if ended == 0 {
        return 0;
    }
    payload::place(places, 0, IN_BUFFERS, number * BUFFER_BYTES, ended);
    1
}

// The bytes of a payload: the section under way goes on with its part, then sections begin; the bytes of the one that is under way at the end are put
// behind what stands at the buffer's front.
fn read(
    buffer: &mut [u8],
    number: usize,
    under: Span,
    load: Load,
    packet: &[u8],
    places: &mut [u64],
) -> Taken
    requires { Reads buffer.old number under load packet.now places.old }
    ensures value { result ≡ taken_of (reading (bytes_of buffer.old under) load packet.now) }
    ensures buffer_after { buffer.new ≡ front ((reading (bytes_of buffer.old under) load packet.now).ended ++ (reading (bytes_of buffer.old under) load packet.now).under) buffer.old }
    ensures places_after { places.new ≡ places_of places.old number (reading (bytes_of buffer.old under) load packet.now) }
{
    let parts = payload::split(packet, load.start, load.from);
    let from = parts.from;
    let to = parts.to;
    let gone = payload::go_on(buffer, under, &packet[from..to], load.start);
    let count = tell_ended(places, number, gone.ended);
    let begun = payload::begin_in(packet, parts.begin, places, count);
    let at = packet.len() - begun.under;
    cells::keep(buffer, gone.ended + gone.under, &packet[at..]);
    Taken {
        ended: gone.ended,
        under: gone.under + begun.under,
        count: begun.count,
    }
}

// One packet with a payload. `number` is that of the PID's buffer; `fresh` says that the PID takes it with this packet, and nothing is known of it.
pub fn take(
    buffer: &mut [u8],
    number: usize,
    fresh: bool,
    words: Words,
    load: Load,
    packet: &[u8],
    places: &mut [u64],
) -> Stepped
    requires { Fits buffer.old number load packet.now places.old }
    ensures value { result ≡ stepped_of fresh words buffer.old number load packet.now }
    ensures buffer_after { buffer.new ≡ buffer_after fresh words buffer.old load packet.now }
    ensures places_after { places.new ≡ places_after fresh words buffer.old number load packet.now places.old }
{
    if repeats(fresh, words.counter, load.counter) {
        return Stepped {
            words: mark(words, load.counter),
            count: 0,
        };
    }
    let under = span_by(buffer, fresh, words, load.counter);
    let taken = read(buffer, number, under, load, packet, places);
    Stepped {
        words: Words {
            number: number as u64 + 1,
            counter: load.counter as u64,
            first: taken.ended as u64,
            size: taken.under as u64,
        },
        count: taken.count,
    }
}
