// Behind the checks, the same for both forms of the gate.
ghost use Rattle.std.specs.Prelude.{◌≡◌, ◌<◌, length};
ghost use Rattle.passing.specs.Passing.{Looks};
ghost use Rattle.demux_pass.specs.Passing.{most_of, went_by, over_from, CanPass};

use crate::Passed;
use streams::Streams;

// The first number of packets that is near the counter's end: there a packet is refused.
const NEAR: u64 = 18446744073709551551;

// How many packets can be passed over: as many as are there, and none when the counter is near its end.
fn most(counted: u64, there: usize) -> usize
    requires { counted < 18446744073709551551 }
    ensures { result ≡ most_of counted there }
{
    let room = NEAR - counted;
    if (there as u64) < room {
        return there;
    }
    room as usize
}

// Passes over what can be passed over, and counts it.
pub fn pass(streams: Streams, words: &[u64], pids: &mut [u64], packets: &[u8]) -> Passed
    requires { CanPass streams words.now pids.old }
    ensures { went_by result pids.new ≡ over_from streams words.now packets.now pids.old }
{
    let all = most(streams.packets, packets.len() / packet::PACKET_BYTES);
    let number = passing::pass_over(words, pids, packets, all);
    Passed {
        number,
        streams: Streams {
            count: streams.count,
            packets: streams.packets + number as u64,
            malformed: streams.malformed,
        },
    }
}
