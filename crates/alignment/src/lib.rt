// Packets out of a stream of bytes that comes in blocks. A packet is the next 188 bytes. Where they do not begin with the sync byte, bytes are passed over, at
// least one, up to a place where it stands and stands again a packet further, or the input has ended by then. Nothing here reads: a caller hands over what it
// has of the input and has not used up (the window), and whether that is the last of it.
#![tactic(auto)]

ghost use Rattle.std.specs.Prelude.{◌≡◌, true, ◌<◌, ◌≤◌, length};
ghost use Rattle.laws.specs.Lists.{first_from};
ghost use Rattle.alignment.specs.Alignment.{sync_at, judged_to, sought, head_of, step_of};

use packet::PACKET_BYTES;

const SYNC_BYTE: u8 = 0x47;

// What stands at the front of the window.
#[derive(Clone, Copy)]
pub enum Next {
    // 188 bytes that begin with the sync byte: a packet.
    Packet,
    // 188 bytes that do not: a packet all the same, and bytes are passed over from its first on.
    Loose,
    // The place up to which bytes were passed over.
    Found,
    // Too little to tell: more of the input is needed.
    More,
    // 1 to 187 bytes, the last of the input.
    Cut,
    // The end of the input.
    Over,
}

// What stands there, and how many bytes of the window are used up by it.
#[derive(Clone, Copy)]
pub struct Step {
    pub next: Next,
    pub used: usize,
}

// A packet may begin at byte j.
fn sync_at(window: &[u8], j: usize) -> bool
    requires { j < length window.now }
    ensures { result ≡ sync_at window.now j }
{
    if window[j] != SYNC_BYTE {
        return false;
    }
    let k = j + PACKET_BYTES;
    if window.len() <= k {
        return true;
    }
    window[k] == SYNC_BYTE
}

// How many places of the window can be judged: where the input goes on, the byte a packet further must be there.
fn judged(length: usize, last: bool) -> usize
    ensures { result ≡ judged_to length last }
{
    if last {
        return length;
    }
    if length < PACKET_BYTES {
        return 0;
    }
    length - PACKET_BYTES
}

// The first place below `end` where a packet may begin, or end.
fn seek(window: &[u8], end: usize) -> usize
    requires { end ≤ length window.now }
    ensures { result ≡ first_from (sync_at window.now) end 0 }
{
    for j in 0..end {
        if sync_at(window, j) {
            return j;
        }
    }
    end
}

// While bytes are passed over.
fn pass(window: &[u8], last: bool) -> Step
    ensures { result ≡ sought window.now last }
{
    let end = judged(window.len(), last);
    let at = seek(window, end);
    if last | (at < end) {
        return Step {
            next: Next::Found,
            used: at,
        };
    }
    Step {
        next: Next::More,
        used: at,
    }
}

// The end of the input, of which fewer than 188 bytes are left.
fn at_end(window: &[u8]) -> Step
    requires { length window.now < 188 }
    ensures { result ≡ head_of window.now true }
{
    if window.len() == 0 {
        return Step {
            next: Next::Over,
            used: 0,
        };
    }
    Step {
        next: Next::Cut,
        used: window.len(),
    }
}

// Else.
fn head(window: &[u8], last: bool) -> Step
    ensures { result ≡ head_of window.now last }
{
    if PACKET_BYTES <= window.len() {
        if window[0] == SYNC_BYTE {
            return Step {
                next: Next::Packet,
                used: PACKET_BYTES,
            };
        }
        return Step {
            next: Next::Loose,
            used: 1,
        };
    }
    if last {
        return at_end(window);
    }
    Step {
        next: Next::More,
        used: 0,
    }
}

// What stands at the front of the window. `passing`: bytes are being passed over.
pub fn look(window: &[u8], passing: bool, last: bool) -> Step
    ensures { result ≡ step_of window.now passing last }
{
    if passing {
        return pass(window, last);
    }
    head(window, last)
}
