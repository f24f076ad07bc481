// The records that one section gives (docs/RULES.md, "Logs"): for a monitor that appends them to a log after each offer and each set. No store is looked at,
// and no CRC is judged again.
#![tactic(auto)]

ghost use Rattle.std.specs.Prelude.{◌≡◌, ◌<◌, ◌≤◌, length};
ghost use Rattle.section.specs.Header.{version_of, stored_crc, header_of};
ghost use Rattle.section.specs.Judged.{checked_change, bare_parts, headed_parts};
ghost use Rattle.log_entries.specs.Entries.{entry_with};
ghost use Rattle.log_makers.specs.Makers.{checked_in, parts_in, seen_or, offer_noted, noted_of, noting_no, set_entry, bare_set_entry};

use gate_state::Answer;
use log_entries::Entry;
use section::bytes;
use section::header::{ChangeRule, Header, Parts};

// Why nothing is noted: the section has more than 4,098 bytes (42).
#[derive(Clone, Copy, Debug, PartialEq, Eq)]
pub enum NoteError {
    TooLong,
}

// The number of what `offer_record` answers: 7, or 42.
pub fn note_number(noted: Result<Entry, NoteError>) -> u8
    ensures { result ≡ noting_no noted }
{
    match noted {
        Ok(_) => 7,
        Err(NoteError::TooLong) => 42,
    }
}

// The record of a section with these parts, and of one that is too short for what its form announces none.
fn parts_entry(kind: u8, input: u8, pid: u16, parts: Option<Parts>) -> Entry
    ensures { result ≡ entry_with (seen_or kind input pid parts) }
{
    match parts {
        Some(p) => log_entries::seen_entry(kind, input, pid, p),
        None => log_entries::none(),
    }
}

fn version(s: &[u8]) -> u8
    requires { 12 ≤ length s.now }
    ensures { result ≡ version_of s.now }
{
    s[5] / 2 % 32
}

// The CRC that a section carries.
fn stored_crc(s: &[u8]) -> u32
    requires { 4 ≤ length s.now }
    ensures { result ≡ stored_crc s.now }
{
    crc::stored(s, s.len() - 4)
}

// With a header.
fn headed(s: &[u8]) -> Parts
    requires { 12 ≤ length s.now }
    ensures { result ≡ headed_parts s.now (stored_crc s.now) }
{
    Parts {
        table_id: s[0],
        extension: bytes::word(s, 3),
        number: s[6],
        version: version(s),
        change: stored_crc(s),
    }
}

// Without a header.
fn bare(table_id: u8, change: u32) -> Parts
    ensures { result ≡ bare_parts table_id change }
{
    Parts {
        table_id: table_id,
        extension: 0,
        number: 0,
        version: 0,
        change: change,
    }
}

fn checked_change(s: &[u8], rule: ChangeRule) -> u32
    requires { 4 ≤ length s.now }
    ensures { result ≡ checked_change rule s.now }
{
    match rule {
        ChangeRule::AllBytes => crc::crc(s),
        ChangeRule::StoredCrc => stored_crc(s),
    }
}

// With a checked CRC and no header.
fn checked(s: &[u8], rule: ChangeRule) -> Option<Parts>
    requires { 3 ≤ length s.now }
    ensures { result ≡ checked_in rule s.now }
{
    if s.len() < 4 {
        return None;
    }
    Some(bare(s[0], checked_change(s, rule)))
}

// The parts of a section that is long enough for what its form announces. Its CRC is not judged.
fn parts(s: &[u8], rule: ChangeRule) -> Option<Parts>
    ensures { result ≡ parts_in rule s.now }
{
    if s.len() < 3 {
        return None;
    }
    if bytes::long_form(s) {
        if 12 <= s.len() {
            return Some(headed(s));
        }
        return checked(s, rule);
    }
    if s[0] == 0x73 {
        return checked(s, rule);
    }
    Some(bare(s[0], crc::crc(s)))
}

// 0, 6 or 13 bytes.
fn note(answer: Answer, rule: ChangeRule, input: u8, pid: u16, section: &[u8]) -> Entry
    requires { length section.now < 65536 }
    ensures { result ≡ offer_noted answer rule input pid section.now }
{
    if (input < 16) & (pid < 8192) {
        return match answer {
            Answer::Emitted => parts_entry(log_records::EMITTED, input, pid, parts(section, rule)),
            Answer::Suppressed => {
                parts_entry(log_records::SUPPRESSED, input, pid, parts(section, rule))
            }
            Answer::Failed(failure) => log_entries::failed_entry(
                failure.is_short(),
                input,
                pid,
                section.len(),
            ),
            Answer::Refused(_) => log_entries::none(),
        };
    }
    log_entries::none()
}

// The record of what the gate answered to an offer: 0, 6 or 13 bytes; none of a section of more than 4,098 bytes. The gate has judged the
// section: a record of what it found sound has the section's parts, and 0 bytes where it cannot have been sound.
pub fn offer_record(
    answer: Answer,
    rule: ChangeRule,
    input: u8,
    pid: u16,
    section: &[u8],
) -> Result<Entry, NoteError>
    ensures { result ≡ noted_of answer rule input pid section.now }
{
    if 4098 < section.len() {
        return Err(NoteError::TooLong);
    }
    Ok(note(answer, rule, input, pid, section))
}

fn header_of(s: &[u8]) -> Header
    requires { 12 ≤ length s.now }
    ensures { result ≡ header_of s.now }
{
    Header {
        table_id: s[0],
        extension: bytes::word(s, 3),
        version: version(s),
        current_next: s[5] % 2 == 1,
        number: s[6],
        last: s[7],
    }
}

// The record of the set that this section completed, 10 bytes; 0 of a section under 12 bytes, where there is no such input or PID, and without a PID: the push
// before it was answered 41.
pub fn set_record(input: u8, pid: Option<u16>, section: &[u8]) -> Entry
    ensures { result ≡ set_entry input pid section.now }
{
    if (16 <= input) | (section.len() < 12) {
        return log_entries::none();
    }
    match pid {
        None => log_entries::none(),
        Some(v) => {
            if v < 8192 {
                log_entries::of_10(log_records::set(input, v, header_of(section)))
            } else {
                log_entries::none()
            }
        }
    }
}

// The same by the older definition, which knows no PIDs: 8 bytes. A part of a run of a log.
pub fn bare_set_record(input: u8, section: &[u8]) -> Entry
    ensures { result ≡ bare_set_entry input section.now }
{
    if (section.len() < 12) | (16 <= input) {
        return log_entries::none();
    }
    log_entries::of_8(log_records::bare_set(input, header_of(section)))
}
