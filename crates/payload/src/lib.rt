// The bytes of one payload (ISO/IEC 13818-1, 2.4.4), over the section buffer of its PID and the places that tell where finished sections are. Bytes are
// copied in whole parts: how many bytes finish a section is decided before one is copied, so a section that is dropped writes nothing.
#![tactic(auto)]

ghost use Rattle.std.specs.Prelude.{◌≡◌, true, [], ◌++◌, ◌+◌, ◌-◌, ◌*◌, ◌<◌, ◌≤◌, length, take, drop, get_or};
ghost use Rattle.transport.specs.Rules.{gather};
ghost use Rattle.payload.specs.Payload.{total_of, end_of, front, bytes_of, parts_of, gone_of, ended_of, going_of, placed, told_from, begun_of};
ghost use Rattle.payload.specs.Payload.{Lies, Joins, HasPlaces};

use section::bytes::wide;

// Bytes of a buffer: the first, and how many.
#[derive(Clone, Copy)]
pub struct Span {
    pub first: usize,
    pub size: usize,
}

// The parts of a packet: the bytes from..to belong to the section under way, from `begin` on sections begin.
#[derive(Clone, Copy)]
pub struct Parts {
    pub from: usize,
    pub to: usize,
    pub begin: usize,
}

// How long the section is that was under way and was finished, and how many bytes of it are under way still; 0 where there is none.
#[derive(Clone, Copy)]
pub struct Gone {
    pub ended: usize,
    pub under: usize,
}

// How many places are used, and how many bytes at the packet's end are of a section that is under way then.
#[derive(Clone, Copy)]
pub struct Begun {
    pub count: usize,
    pub under: usize,
}

const HEADER_BYTES: usize = 3;

// table_id 0xFF stands for stuffing, up to the payload's end.
const STUFFING: u8 = 0xFF;

const PLACE_WORDS: usize = 6;

const IN_PACKET: u64 = 0;

// ---- a section's length

// All bytes of a section whose second and third bytes are these: section_length counts those behind the third.
fn total(high: u8, low: u8) -> usize
    ensures { (result ≡ total_of high low) × (result < 4099) }
{
    HEADER_BYTES + wide(high) % 16 * 256 + wide(low)
}

// How long the section is that stands whole at the front of the bytes, 0 where none does.
pub fn whole_in(bytes: &[u8]) -> usize
    ensures { (result ≡ end_of bytes.now) × (result < 4099) }
{
    if bytes.len() < HEADER_BYTES {
        return 0;
    }
    let size = total(bytes[1], bytes[2]);
    if bytes.len() < size {
        return 0;
    }
    size
}

// Byte i of a section of which `size` bytes are in the buffer, from `first` on, and the others are the part's.
fn byte_of(buffer: &[u8], first: usize, size: usize, part: &[u8], i: usize) -> u8
    requires { (first + size ≤ length buffer.now) × (i < size + length part.now) }
    ensures { result ≡ get_or (take size (drop first buffer.now) ++ part.now) i 0 }
{
    if i < size {
        return buffer[first + i];
    }
    part[i - size]
}

// The same as `whole_in`, of such a section.
fn end_in(buffer: &[u8], first: usize, size: usize, part: &[u8]) -> usize
    requires { first + size ≤ length buffer.now }
    ensures { (result ≡ end_of (take size (drop first buffer.now) ++ part.now)) × (result < 4099) }
{
    let there = size + part.len();
    if there < HEADER_BYTES {
        return 0;
    }
    let high = byte_of(buffer, first, size, part, 1);
    let low = byte_of(buffer, first, size, part, 2);
    let all = total(high, low);
    if there < all {
        return 0;
    }
    all
}

// ---- the buffer

// Moves bytes to the buffer's front.
pub fn to_front(buffer: &mut [u8], first: usize, size: usize)
    requires { first + size ≤ length buffer.old }
    ensures { buffer.new ≡ front (take size (drop first buffer.old)) buffer.old }
{
    if first != 0 {
        buffer.copy_within(first..first + size, 0);
    }
}

// Bytes of the buffer at its front, and those of the part behind them.
fn join(buffer: &mut [u8], first: usize, size: usize, part: &[u8])
    requires { Joins buffer.old first size (length part.now) }
    ensures { buffer.new ≡ front (take size (drop first buffer.old) ++ part.now) buffer.old }
{
    to_front(buffer, first, size);
    cells::keep(buffer, size, part);
}

// The part of a payload that belongs to the section under way: it is finished, or goes on, or is dropped where a start says that its end was here.
pub fn go_on(buffer: &mut [u8], under: Span, part: &[u8], start: bool) -> Gone
    requires { Lies buffer.old under part.now }
    ensures value { result ≡ gone_of start (bytes_of buffer.old under) part.now }
    ensures buffer_after { buffer.new ≡ front (ended_of (bytes_of buffer.old under) part.now ++ going_of start (bytes_of buffer.old under) part.now) buffer.old }
{
    let first = under.first;
    let size = under.size;
    if size == 0 {
        return Gone { ended: 0, under: 0 };
    }
    let all = end_in(buffer, first, size, part);
    if all != 0 {
        let more = all - size;
        join(buffer, first, size, &part[0..more]);
        return Gone {
            ended: all,
            under: 0,
        };
    }
    if start {
        return Gone { ended: 0, under: 0 };
    }
    join(buffer, first, size, part);
    Gone {
        ended: 0,
        under: size + part.len(),
    }
}

// ---- the packet

// pointer_field: so many bytes behind it belong to the section under way, then sections begin. A pointer past the end, or none, tells nothing.
fn pointed(packet: &[u8], from: usize) -> Parts
    requires { from ≤ length packet.now }
    ensures { result ≡ parts_of packet.now true from }
{
    let end = packet.len();
    if from == end {
        return Parts {
            from: end,
            to: end,
            begin: end,
        };
    }
    let begin = from + 1 + wide(packet[from]);
    if end < begin {
        return Parts {
            from: end,
            to: end,
            begin: end,
        };
    }
    Parts {
        from: from + 1,
        to: begin,
        begin,
    }
}

// The parts of a packet whose payload begins at `from`. Without a start all of it belongs to the section under way.
pub fn split(packet: &[u8], start: bool, from: usize) -> Parts
    requires { from ≤ length packet.now }
    ensures { result ≡ parts_of packet.now start from }
{
    if start {
        return pointed(packet, from);
    }
    Parts {
        from,
        to: packet.len(),
        begin: packet.len(),
    }
}

// ---- the places

// Place k tells where the bytes of a finished section are: in the packet or in the buffers, the first there, and how many.
pub fn place(places: &mut [u64], k: usize, whence: u64, first: usize, size: usize)
    requires { k * 6 + 5 < length places.old }
    ensures { places.new ≡ placed places.old k whence first size }
{
    places[k * PLACE_WORDS + 3] = whence;
    places[k * PLACE_WORDS + 4] = first as u64;
    places[k * PLACE_WORDS + 5] = size as u64;
}

// The sections that begin in a packet, one behind another from `begin` on: those that end in it are told from place `count` on.
pub fn begin_in(packet: &[u8], begin: usize, places: &mut [u64], count: usize) -> Begun
    requires { HasPlaces packet.now begin places.old count }
    ensures value { result ≡ begun_of count (gather true [] (drop begin packet.now)) }
    ensures places_after { places.new ≡ told_from places.old count begin (gather true [] (drop begin packet.now)).sections }
{
    let mut at = begin;
    let mut k = count;
    while at < packet.len() {
        if packet[at] == STUFFING {
            return Begun { count: k, under: 0 };
        }
        let size = whole_in(&packet[at..]);
        if size == 0 {
            return Begun {
                count: k,
                under: packet.len() - at,
            };
        }
        place(places, k, IN_PACKET, at, size);
        at += size;
        k += 1;
    }
    Begun { count: k, under: 0 }
}
