// The records of a log in bytes (docs/RULES.md, "Logs"). Parts for the writer and the checker: each makes one record.
#![tactic(auto)]

ghost use Rattle.std.specs.Prelude.{◌≡◌, cond, ◌<◌, ◌/◌, ◌%◌, ◌+◌, ◌≤◌, length};
ghost use Rattle.rules_logs.specs.Records.{record_size, seen_record, failed_record, set_record, bare_set_record};
ghost use Rattle.log_records.specs.Reading.{seen_at, failed_at, set_at, bare_set_at, fields_at, read_at, error_number, IsSize};

use section::bytes::word;
use section::header::{Header, Parts};

// Kinds.
pub const EMITTED: u8 = 1;

pub const SUPPRESSED: u8 = 2;

pub const SHORT: u8 = 3;

pub const MISMATCH: u8 = 4;

pub const SET: u8 = 5;

pub const BARE_SET: u8 = 6;

// What stands for a PID that is unknown.
pub const NO_PID: u16 = 8192;

// How many bytes a record of this kind has, with the kind; 0 where there is no such kind.
pub fn record_size(kind: u8) -> usize
    ensures { result ≡ record_size kind }
{
    if (kind == EMITTED) | (kind == SUPPRESSED) {
        return 13;
    }
    if (kind == SHORT) | (kind == MISMATCH) {
        return 6;
    }
    if kind == SET {
        return 10;
    }
    if kind == BARE_SET {
        return 8;
    }
    0
}

// The high byte of 16 bits.
fn high(n: u16) -> u8
    ensures { result ≡ n / 256 }
{
    (n / 256) as u8
}

fn low(n: u16) -> u8
    ensures { result ≡ n % 256 }
{
    (n % 256) as u8
}

// Byte k of 32 bits, divided by 256 to the k first.
fn byte_of(n: u32, power: u32) -> u8
    requires { 0 < power }
    ensures { result ≡ n / power % 256 }
{
    (n / power % 256) as u8
}

// Emitted or suppressed.
pub fn seen(kind: u8, input: u8, pid: u16, p: Parts) -> [u8; 13]
    ensures { result ≡ seen_record kind input pid p }
{
    let change = p.change;
    [
        kind,
        input,
        high(pid),
        low(pid),
        p.table_id,
        high(p.extension),
        low(p.extension),
        p.number,
        p.version,
        byte_of(change, 16777216),
        byte_of(change, 65536),
        byte_of(change, 256),
        byte_of(change, 1),
    ]
}

// Short or a mismatch, of a section of so many bytes.
pub fn failed(kind: u8, input: u8, pid: u16, length: u16) -> [u8; 6]
    ensures { result ≡ failed_record kind input pid length }
{
    [kind, input, high(pid), low(pid), high(length), low(length)]
}

fn bit(b: bool) -> u8
    ensures { result ≡ cond b 1 0 }
{
    if b { 1 } else { 0 }
}

// A set with its PID, by the header of the section that completed it.
pub fn set(input: u8, pid: u16, h: Header) -> [u8; 10]
    ensures { result ≡ set_record input pid h }
{
    [
        SET,
        input,
        high(pid),
        low(pid),
        h.table_id,
        high(h.extension),
        low(h.extension),
        bit(h.current_next),
        h.version,
        h.last,
    ]
}

// A set without a PID.
pub fn bare_set(input: u8, h: Header) -> [u8; 8]
    ensures { result ≡ bare_set_record input h }
{
    [
        BARE_SET,
        input,
        h.table_id,
        high(h.extension),
        low(h.extension),
        bit(h.current_next),
        h.version,
        h.last,
    ]
}

// The fields of a record; those that its kind has not are 0, and the PID of a set without one is 8192.
#[derive(Clone, Copy)]
pub struct Record {
    pub kind: u8,
    pub input: u8,
    pub pid: u16,
    pub table_id: u8,
    pub extension: u16,
    pub number: u8,
    pub version: u8,
    pub change: u32,
    pub length: u16,
    pub current_next: u8,
    pub last: u8,
}

// Why no record is read: its kind is none that there is (38), or it is cut off (39).
#[derive(Clone, Copy, Debug, PartialEq, Eq)]
pub enum ReadError {
    Unknown,
    Cut,
}

impl ReadError {
    pub fn number(self) -> u8
        ensures { result ≡ error_number self }
    {
        match self {
            ReadError::Unknown => 38,
            ReadError::Cut => 39,
        }
    }
}

// Emitted or suppressed.
fn seen_at(log: &[u8], at: usize) -> Record
    requires { at + 13 ≤ length log.now }
    ensures { result ≡ seen_at log.now at }
{
    Record {
        kind: log[at],
        input: log[at + 1],
        pid: word(log, at + 2),
        table_id: log[at + 4],
        extension: word(log, at + 5),
        number: log[at + 7],
        version: log[at + 8],
        change: crc::stored(log, at + 9),
        length: 0,
        current_next: 0,
        last: 0,
    }
}

// Short or a mismatch.
fn failed_at(log: &[u8], at: usize) -> Record
    requires { at + 6 ≤ length log.now }
    ensures { result ≡ failed_at log.now at }
{
    Record {
        kind: log[at],
        input: log[at + 1],
        pid: word(log, at + 2),
        table_id: 0,
        extension: 0,
        number: 0,
        version: 0,
        change: 0,
        length: word(log, at + 4),
        current_next: 0,
        last: 0,
    }
}

// A set with its PID.
fn set_at(log: &[u8], at: usize) -> Record
    requires { at + 10 ≤ length log.now }
    ensures { result ≡ set_at log.now at }
{
    Record {
        kind: log[at],
        input: log[at + 1],
        pid: word(log, at + 2),
        table_id: log[at + 4],
        extension: word(log, at + 5),
        number: 0,
        version: log[at + 8],
        change: 0,
        length: 0,
        current_next: log[at + 7],
        last: log[at + 9],
    }
}

// A set without one.
fn bare_set_at(log: &[u8], at: usize) -> Record
    requires { at + 8 ≤ length log.now }
    ensures { result ≡ bare_set_at log.now at }
{
    Record {
        kind: log[at],
        input: log[at + 1],
        pid: NO_PID,
        table_id: log[at + 2],
        extension: word(log, at + 3),
        number: 0,
        version: log[at + 6],
        change: 0,
        length: 0,
        current_next: log[at + 5],
        last: log[at + 7],
    }
}

// The record of this size.
fn fields(log: &[u8], at: usize, size: usize) -> Record
    requires size_in_bounds { at + size ≤ length log.now }
    requires size { IsSize size }
    ensures { result ≡ fields_at log.now at size }
{
    if size == 13 {
        return seen_at(log, at);
    }
    if size == 6 {
        return failed_at(log, at);
    }
    if size == 10 {
        return set_at(log, at);
    }
    bare_set_at(log, at)
}

// The record that begins at this place, none at the end of the log.
pub fn read_record(log: &[u8], place: usize) -> Result<Option<Record>, ReadError>
    ensures { result ≡ read_at log.now place }
{
    if log.len() <= place {
        return Ok(None);
    }
    let size = record_size(log[place]);
    if size == 0 {
        return Err(ReadError::Unknown);
    }
    if log.len() - place < size {
        return Err(ReadError::Cut);
    }
    Ok(Some(fields(log, place, size)))
}
