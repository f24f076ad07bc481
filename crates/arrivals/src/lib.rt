// What a section's bytes and where it came from say to a collector (docs/RULES.md, "Collectors" and "Answers"): a refusal (41, 12, 37, 14 to 17, for the EIT collector
// also 18 and 19), or what arrived. No store is looked at.
#![tactic(auto)]

ghost use Rattle.std.specs.Prelude.{◌≡◌};
ghost use Rattle.section.specs.Judged.{collected_of};
ghost use Rattle.eit_section.specs.Eit.{eit_of};
ghost use Rattle.arrivals.specs.Arrivals.{made_words, origin_words, bit_of, set_key, eit_key, entry_of, kind_number, arrival_of};
ghost use Rattle.arrivals.specs.Arrivals.{set_read, set_arrival, eit_fields, eit_read, eit_arrival, SetTaken, EitTaken};

use answers::Refusal;
use eit_section::{Eit, Kind};
use rows::{Entry, Key, Origin};
use section::header::Header;

// What an EIT section says: its row and slot; its kind, by number; the word of its segment, segment_last_section_number and 1; last_table_id.
#[derive(Clone, Copy)]
pub struct Arrival {
    pub entry: Entry,
    pub kind: u64,
    pub segment: u32,
    pub tables: u64,
}

// What a section says to the set collector: 41, then 12, then 37, then 14 to 17. No PID and PID 0 are different.
#[tactic(auto, unfolding(crate::specs::Arrivals::set_arrival))]
pub fn set_arrival(input: u8, pid: Option<u16>, bytes: &[u8]) -> Result<Entry, Refusal>
    ensures value { result ≡ set_arrival input pid bytes.now }
    ensures set_taken { SetTaken bytes.now result }
{
    let from = origin_words(input, pid)?;
    set_read(from, bytes)
}

// What a section says to the EIT collector: 41, then 12, then 37, then 14 to 19.
#[tactic(auto, unfolding(crate::specs::Arrivals::eit_arrival))]
pub fn eit_arrival(input: u8, pid: Option<u16>, bytes: &[u8]) -> Result<Arrival, Refusal>
    ensures value { result ≡ eit_arrival input pid bytes.now }
    ensures eit_taken { EitTaken bytes.now result }
{
    let from = origin_words(input, pid)?;
    eit_read(from, bytes)
}

// Where a section came from, in the words of a key: no PID is refused (41), then a PID of 8192 or more (12), then an input of 16 or more (37).
pub fn origin_words(input: u8, pid: Option<u16>) -> Result<Origin, Refusal>
    ensures { result ≡ origin_words input pid }
{
    let Some(pid) = pid else {
        return Err(Refusal::NoPid);
    };
    let made = section::ids::Origin::make(input, pid)?;
    let input = made.input;
    let pid = made.pid;
    Ok(Origin {
        input: input.0 as u64,
        pid: pid.0 as u64,
    })
}

// A bit of a section, as a word of a key.
fn bit(b: bool) -> u64
    ensures { result ≡ bit_of b }
{
    if b { 1 } else { 0 }
}

fn set_key(from: Origin, h: Header) -> Key
    ensures { result ≡ set_key from h }
{
    Key {
        from,
        table_id: h.table_id as u64,
        extension: h.extension as u64,
        current_next: bit(h.current_next),
        transport_stream_id: 0,
        original_network_id: 0,
    }
}

fn eit_key(from: Origin, h: Header, f: Eit) -> Key
    ensures { result ≡ eit_key from h f }
{
    let service = f.service_id;
    Key {
        from,
        table_id: h.table_id as u64,
        extension: service.0 as u64,
        current_next: bit(h.current_next),
        transport_stream_id: f.transport_stream_id as u64,
        original_network_id: f.original_network_id as u64,
    }
}

fn entry_of(key: Key, h: Header) -> Entry
    ensures { result ≡ entry_of key h }
{
    Entry {
        key,
        version: h.version as u64,
        last: h.last as u64,
        number: h.number as usize,
    }
}

pub fn kind_number(kind: Kind) -> u64
    ensures { result ≡ kind_number kind }
{
    match kind {
        Kind::PresentFollowingActual => 0,
        Kind::PresentFollowingOther => 1,
        Kind::ScheduleActual => 2,
        Kind::ScheduleOther => 3,
    }
}

fn arrival_of(from: Origin, h: Header, f: Eit) -> Arrival
    ensures { result ≡ arrival_of from h f }
{
    let entry = entry_of(eit_key(from, h, f), h);
    let kind = f.kind;
    Arrival {
        entry,
        kind: kind_number(kind),
        segment: f.segment_last_section_number as u32 + 1,
        tables: f.last_table_id as u64,
    }
}

// 14 to 17, then what the header says.
pub fn set_read(from: Origin, bytes: &[u8]) -> Result<Entry, Refusal>
    ensures { result ≡ set_read from (collected_of bytes.now) }
{
    let h = section::header::collect(bytes)?;
    Ok(entry_of(set_key(from, h), h))
}

// 14 to 17, then the rest.
fn eit_read(from: Origin, bytes: &[u8]) -> Result<Arrival, Refusal>
    ensures { result ≡ eit_read from bytes.now (collected_of bytes.now) }
{
    let header = section::header::collect(bytes)?;
    eit_fields(from, header, bytes)
}

// 18 and 19, then what the section says.
fn eit_fields(from: Origin, h: Header, bytes: &[u8]) -> Result<Arrival, Refusal>
    ensures { result ≡ eit_fields from h (eit_of bytes.now) }
{
    let f = eit_section::read(bytes)?;
    Ok(arrival_of(from, h, f))
}
