// The records that one section gives, in 23 bytes (docs/RULES.md, "Logs"). Parts of what makes them.
#![tactic(auto)]

ghost use Rattle.std.specs.Prelude.{◌≡◌, [], ◌++◌, ◌<◌, ◌≤◌, take};
ghost use Rattle.rules_logs.specs.Records.{seen_record, failed_record};
ghost use Rattle.log_entries.specs.Entries.{entry_with, joined_of, failed_kind};

use section::header::Parts;

// The records that one section gives, one after another: the first `length` bytes. The others are 0.
#[derive(Clone, Copy)]
pub struct Entry {
    pub bytes: [u8; 23],
    pub length: usize,
}

// No record.
pub fn none() -> Entry
    ensures { result ≡ entry_with [] }
{
    Entry {
        bytes: [0; 23],
        length: 0,
    }
}

// A record of 6 bytes.
fn of_6(a: [u8; 6]) -> Entry
    ensures { result ≡ entry_with a }
{
    Entry {
        bytes: [
            a[0], a[1], a[2], a[3], a[4], a[5], 0, 0, 0, 0, 0, 0, 0, 0, 0, 0, 0, 0, 0, 0, 0, 0, 0,
        ],
        length: 6,
    }
}

// A record of 8 bytes.
pub fn of_8(a: [u8; 8]) -> Entry
    ensures { result ≡ entry_with a }
{
    Entry {
        bytes: [
            a[0], a[1], a[2], a[3], a[4], a[5], a[6], a[7], 0, 0, 0, 0, 0, 0, 0, 0, 0, 0, 0, 0, 0,
            0, 0,
        ],
        length: 8,
    }
}

// A record of 10 bytes.
pub fn of_10(a: [u8; 10]) -> Entry
    ensures { result ≡ entry_with a }
{
    Entry {
        bytes: [
            a[0], a[1], a[2], a[3], a[4], a[5], a[6], a[7], a[8], a[9], 0, 0, 0, 0, 0, 0, 0, 0, 0,
            0, 0, 0, 0,
        ],
        length: 10,
    }
}

// A record of 13 bytes.
fn of_13(a: [u8; 13]) -> Entry
    ensures { result ≡ entry_with a }
{
    Entry {
        bytes: [
            a[0], a[1], a[2], a[3], a[4], a[5], a[6], a[7], a[8], a[9], a[10], a[11], a[12], 0, 0,
            0, 0, 0, 0, 0, 0, 0, 0,
        ],
        length: 13,
    }
}

// The bytes of a record of 13, and of one of at most 10 behind it.
fn join(a: [u8; 13], b: [u8; 23]) -> [u8; 23]
    ensures { result ≡ a ++ take 10 b }
{
    [
        a[0], a[1], a[2], a[3], a[4], a[5], a[6], a[7], a[8], a[9], a[10], a[11], a[12], b[0],
        b[1], b[2], b[3], b[4], b[5], b[6], b[7], b[8], b[9],
    ]
}

// Short or a mismatch, of a section of so many bytes.
pub fn failed_entry(short: bool, input: u8, pid: u16, size: usize) -> Entry
    requires { size < 65536 }
    ensures { result ≡ entry_with (failed_record (failed_kind short) input pid size) }
{
    if short {
        return of_6(log_records::failed(log_records::SHORT, input, pid, size as u16));
    }
    of_6(log_records::failed(log_records::MISMATCH, input, pid, size as u16))
}

// Emitted or suppressed.
pub fn seen_entry(kind: u8, input: u8, pid: u16, p: Parts) -> Entry
    ensures { result ≡ entry_with (seen_record kind input pid p) }
{
    of_13(log_records::seen(kind, input, pid, p))
}

// Emitted or suppressed, and the record of a set behind it.
pub fn seen_with(kind: u8, input: u8, pid: u16, p: Parts, set: Entry) -> Entry
    requires { set.length ≤ 10 }
    ensures { result ≡ joined_of (seen_record kind input pid p) set }
{
    let b = set.bytes;
    Entry {
        bytes: join(log_records::seen(kind, input, pid, p), b),
        length: 13 + set.length,
    }
}
