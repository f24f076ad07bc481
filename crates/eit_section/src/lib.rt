// The event information table, EN 300 468 5.2.4: its kinds, its layout and the end of a segment.
#![tactic(auto)]

ghost use Rattle.std.specs.Prelude.{◌≡◌, ◌≤◌, length};
ghost use Rattle.laws.specs.Entries.{entry_size, whole_entries};
ghost use Rattle.section.specs.Header.{byte_at};
ghost use Rattle.eit_section.specs.Eit.{kind_of, fields_of, layout_good, eit_as, eit_of};
ghost use Rattle.eit_section.specs.Segment.{segment_end};

use answers::Refusal;
use section::bytes::{wide, word};
use section::ids::ServiceId;

// The four kinds of an EIT (EN 300 468, table 2).
#[derive(Clone, Copy)]
pub enum Kind {
    PresentFollowingActual,
    PresentFollowingOther,
    ScheduleActual,
    ScheduleOther,
}

impl Kind {
    // The kind by table_id, EN 300 468 table 2, or none where the section is no EIT.
    pub fn from_table_id(table_id: u8) -> Option<Kind>
        ensures { result ≡ kind_of table_id }
    {
        match table_id {
            0x4E => Some(Kind::PresentFollowingActual),
            0x4F => Some(Kind::PresentFollowingOther),
            0x50..=0x5F => Some(Kind::ScheduleActual),
            0x60..=0x6F => Some(Kind::ScheduleOther),
            _ => None,
        }
    }
}

// What an EIT section says before its events.
#[derive(Clone, Copy)]
pub struct Eit {
    pub kind: Kind,
    pub service_id: ServiceId,
    pub transport_stream_id: u16,
    pub original_network_id: u16,
    pub segment_last_section_number: u8,
    pub last_table_id: u8,
}

// Reads a section as an EIT: its fields; or 18, the table_id is no EIT's; or 19, the layout is broken. Its length, form and CRC are judged elsewhere: any bytes get
// an answer here.
pub fn read(s: &[u8]) -> Result<Eit, Refusal>
    ensures { result ≡ eit_of s.now }
{
    let Some(kind) = Kind::from_table_id(table_id(s)) else {
        return Err(Refusal::NotEit);
    };
    read_as(s, kind)
}

// The same of a section whose table_id is one of this kind.
fn read_as(s: &[u8], kind: Kind) -> Result<Eit, Refusal>
    ensures { result ≡ eit_as s.now kind }
{
    if !is_laid_out(s) {
        return Err(Refusal::Broken);
    }
    Ok(fields(s, kind))
}

// Sections of a sub_table come in segments of eight (EN 300 468, 5.2.4): section_number 0 to 7, 8 to 15, .. 248 to 255.
const SECTIONS_PER_SEGMENT: usize = 8;

// The section_number of the last section of a segment. Example: the segment that begins at 8, with segment_last_section_number 11 in a sub_table whose
// last_section_number is 20, ends at 11; with last_section_number 10 it ends at 10. The standard wants segment_last_section_number inside its segment; any value is
// taken by its low three bits, which say how far behind the first section the last one is. The sum is made wide: nothing here says that the first number is a
// multiple of eight, and in eight bits 250 + 7 would wrap.
pub fn segment_end(
    first_section_number: u8,
    segment_last_section_number: u8,
    last_section_number: u8,
) -> u8
    ensures { result ≡ segment_end first_section_number segment_last_section_number last_section_number }
{
    let number_within_segment = wide(segment_last_section_number) % SECTIONS_PER_SEGMENT;
    let end = wide(first_section_number) + number_within_segment;
    if end < wide(last_section_number) {
        end as u8
    } else {
        last_section_number
    }
}

// Byte 0, and 0 where there is none.
fn table_id(s: &[u8]) -> u8
    ensures { result ≡ byte_at s.now 0 }
{
    if 0 < s.len() { s[0] } else { 0 }
}

// The fields of a section of this kind; the extension, bytes 3 and 4, is the service_id.
fn fields(s: &[u8], kind: Kind) -> Eit
    requires { 18 ≤ length s.now }
    ensures { result ≡ fields_of s.now kind }
{
    Eit {
        kind: kind,
        service_id: ServiceId(word(s, 3)),
        transport_stream_id: word(s, 8),
        original_network_id: word(s, 10),
        segment_last_section_number: s[12],
        last_table_id: s[13],
    }
}

// Whether there is room for the 14 bytes before the events and the CRC's four, and what stands between them is events.
fn is_laid_out(s: &[u8]) -> bool
    ensures { result ≡ layout_good s.now }
{
    if s.len() < 18 {
        return false;
    }
    let crc = s.len() - 4;
    events(&s[14..crc])
}

// The bytes of the event that s starts with: 12, and the descriptor bytes that the last 12 bits of these count.
fn event_size(s: &[u8]) -> usize
    requires { 12 ≤ length s.now }
    ensures { result ≡ entry_size 12 s.now }
{
    12 + (wide(s[10]) % 16 * 256 + wide(s[11]))
}

// Whether the bytes are events to the last: one event, and then the rest by the same rule.
fn events(s: &[u8]) -> bool
    ensures { result ≡ whole_entries 12 s.now }
{
    if s.len() == 0 {
        return true;
    }
    if s.len() < 12 {
        return false;
    }
    let n = event_size(s);
    if s.len() < n {
        return false;
    }
    events(&s[n..])
}
