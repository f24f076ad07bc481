// One packet of a transport stream: what its 188 bytes say (ISO/IEC 13818-1, 2.4.3.2 and 2.4.3.3).
#![tactic(auto)]

ghost use Rattle.std.specs.Prelude.{◌≡◌, ◌<◌, ◌≤◌, length};
ghost use Rattle.packet.specs.Packets.{packet_of, payload_at, is_readable, pid_of, starts_in, load_of};

use section::bytes::wide;
use section::ids::Pid;

// A packet with a payload: its PID, payload_unit_start_indicator, continuity_counter, and the place of the payload's first byte. The payload goes to
// the packet's end, and has 0 to 184 bytes.
#[derive(Clone, Copy)]
pub struct Load {
    pub pid: Pid,
    pub start: bool,
    pub counter: u8,
    pub from: usize,
}

#[derive(Clone, Copy)]
pub enum Packet {
    // Not 188 bytes, no sync byte, or an adaptation field past the end.
    Malformed,
    // No payload that can be read: none is there, it is scrambled, or the packet is marked as damaged.
    Nothing,
    Payload(Load),
}

pub const PACKET_BYTES: usize = 188;

const SYNC_BYTE: u8 = 0x47;

// The place of the payload: behind the four bytes of the header and, where adaptation_field_control says that there is one, behind the adaptation
// field, whose first byte counts those that follow it.
fn payload_at(control: u8, field_length: u8) -> usize
    ensures { result ≡ payload_at control field_length }
{
    if control / 32 % 2 == 1 {
        5 + wide(field_length)
    } else {
        4
    }
}

// transport_error_indicator 0, transport_scrambling_control 00, and adaptation_field_control with its payload bit.
fn is_readable(flags: u8, control: u8) -> bool
    ensures { result ≡ is_readable flags control }
{
    (flags / 128 == 0) & (control / 64 == 0) & (control / 16 % 2 == 1)
}

fn pid(flags: u8, low: u8) -> Pid
    ensures { result ≡ pid_of flags low }
{
    Pid((wide(flags) % 32 * 256 + wide(low)) as u16)
}

// payload_unit_start_indicator
fn starts(flags: u8) -> bool
    ensures { result ≡ starts_in flags }
{
    flags / 64 % 2 == 1
}

fn told(flags: u8, low: u8, control: u8, from: usize) -> Load
    ensures { result ≡ load_of flags low control from }
{
    Load {
        pid: pid(flags, low),
        start: starts(flags),
        counter: control % 16,
        from,
    }
}

// What a packet says. A field past the end makes it malformed whatever its other bits say.
pub fn read(p: &[u8]) -> Packet
    ensures { result ≡ packet_of p.now }
{
    if p.len() != PACKET_BYTES {
        return Packet::Malformed;
    }
    if p[0] != SYNC_BYTE {
        return Packet::Malformed;
    }
    let flags = p[1];
    let control = p[3];
    let from = payload_at(control, p[4]);
    if PACKET_BYTES < from {
        return Packet::Malformed;
    }
    if is_readable(flags, control) {
        Packet::Payload(told(flags, p[2], control, from))
    } else {
        Packet::Nothing
    }
}
