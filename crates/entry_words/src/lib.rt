// What an entry of a loop says, and the twelve words by which it is listed (docs/RULES.md, "Entries"). An entry is lent as its header's bytes: twelve of an event
// (EN 300 468, 5.2.4), tag and length of a descriptor (6.1).
#![tactic(auto)]

ghost use Rattle.std.specs.Prelude.{◌≡◌, ◌≤◌, ◌<◌, length};
ghost use Rattle.laws.specs.Entries.{counted};
ghost use Rattle.entry_words.specs.Words.{event_of, seconds_word, flag_word, event_words, plain_words, stream_words, service_words, entry_words, descriptor_words};

use section::bytes::{wide, word};
use times::{Day, Seconds};

// The words of an entry.
pub const WORDS: usize = 12;

// The bytes of an event's header.
pub const EVENT_HEADER: usize = 12;

// Of a transport stream's, and of a service's.
pub const STREAM_HEADER: usize = 6;

pub const SERVICE_HEADER: usize = 5;

// The second count of a time that is undefined.
pub const UNDEFINED: u32 = 4294967295;

// An event as it is read. `descriptors` counts the bytes of its descriptors.
#[derive(Clone, Copy)]
pub struct Event {
    pub event_id: u16,
    pub day: Day,
    pub time: Option<Seconds>,
    pub duration: Option<Seconds>,
    pub running_status: u8,
    pub free_ca_mode: bool,
    pub descriptors: usize,
}

// How many bytes follow a header: its last 12 bits.
pub fn count(header: &[u8]) -> usize
    requires { 2 ≤ length header.now }
    ensures { (result ≡ counted (length header.now) header.now) × (result < 4096) }
{
    let n = header.len();
    wide(header[n - 2]) % 16 * 256 + wide(header[n - 1])
}

// The event whose header's bytes these are.
pub fn event_of(header: &[u8]) -> Event
    requires { length header.now ≡ 12 }
    ensures { (result ≡ event_of header.now) × (result.descriptors < 4096) }
{
    Event {
        event_id: word(header, 0),
        day: times::day_of(header[2], header[3]),
        time: times::time_of(header[4], header[5], header[6]),
        duration: times::time_of(header[7], header[8], header[9]),
        running_status: header[10] / 32,
        free_ca_mode: header[10] / 16 % 2 == 1,
        descriptors: count(header),
    }
}

fn seconds_word(time: Option<Seconds>) -> u32
    ensures { result ≡ seconds_word time }
{
    match time {
        Some(seconds) => seconds.0,
        None => UNDEFINED,
    }
}

fn flag_word(flag: bool) -> u32
    ensures { result ≡ flag_word flag }
{
    if flag { 1 } else { 0 }
}

fn byte_word(x: u8) -> u32
    ensures { result ≡ x }
{
    x as u32
}

// The one place where a day and a second count become numbers.
fn event_words(event: Event, number: u32, at: u32) -> [u32; 12]
    requires { event.descriptors < 4096 }
    ensures { result ≡ event_words number at event }
{
    let day = event.day;
    let time = event.time;
    let duration = event.duration;
    [
        1,
        number,
        at,
        event.event_id as u32,
        event.descriptors as u32,
        0,
        day.0 as u32,
        seconds_word(time),
        seconds_word(duration),
        event.running_status as u32,
        flag_word(event.free_ca_mode),
        0,
    ]
}

// Of an entry of another loop: what every loop's entries have.
fn plain_words(header: &[u8], number: u32, at: u32) -> [u32; 12]
    requires { 4 ≤ length header.now }
    ensures { result ≡ plain_words number at header.now }
{
    [
        0,
        number,
        at,
        word(header, 0) as u32,
        count(header) as u32,
        0,
        0,
        0,
        0,
        0,
        0,
        0,
    ]
}

fn stream_words(header: &[u8], number: u32, at: u32) -> [u32; 12]
    requires { length header.now ≡ 6 }
    ensures { result ≡ stream_words number at header.now }
{
    [
        3,
        number,
        at,
        word(header, 0) as u32,
        count(header) as u32,
        word(header, 2) as u32,
        0,
        0,
        0,
        0,
        0,
        0,
    ]
}

fn service_words(header: &[u8], network: u32, number: u32, at: u32) -> [u32; 12]
    requires { length header.now ≡ 5 }
    ensures { result ≡ service_words network number at header.now }
{
    [
        4,
        number,
        at,
        word(header, 0) as u32,
        count(header) as u32,
        network,
        0,
        0,
        0,
        byte_word(header[3] / 32),
        byte_word(header[3] / 16 % 2),
        byte_word(header[2] % 4),
    ]
}

// Of an entry, by the length of its header: `number` is that of its section, `at` the place of its first byte, `network` the section's original_network_id where its
// services share one.
pub fn entry_words(header: &[u8], network: u32, number: u32, at: u32) -> [u32; 12]
    requires { 4 ≤ length header.now }
    ensures { result ≡ entry_words network number at header.now }
{
    if header.len() == EVENT_HEADER {
        return event_words(event_of(header), number, at);
    }
    if header.len() == STREAM_HEADER {
        return stream_words(header, number, at);
    }
    if header.len() == SERVICE_HEADER {
        return service_words(header, network, number, at);
    }
    plain_words(header, number, at)
}

// Of a descriptor, by its tag and its length.
pub fn descriptor_words(tag: u8, size: u8, number: u32, at: u32) -> [u32; 12]
    ensures { result ≡ descriptor_words number at tag size }
{
    [2, number, at, tag as u32, size as u32, 0, 0, 0, 0, 0, 0, 0]
}
