// The packets at the front of some bytes that are passed over (docs/RULES.md, "Packets"): those without a payload that can be read, and those of PIDs that are not
// watched, whose words become 0. Over words and bytes that the caller has judged.
#![tactic(auto)]

ghost use Rattle.std.specs.Prelude.{◌≡◌, ◌*◌, ◌<◌, ◌≤◌, length};
ghost use Rattle.passing.specs.Passing.{pid_passes, pids_without, passes, pids_after, passed, passed_from, Looks};

use packet::Packet;
use section::ids::Pid;

fn pass_pid(watched: &[u64], pids: &mut [u64], pid: Pid) -> bool
    requires looks { Looks watched.now pids.old }
    requires pid_bound { pid.0 < 8192 }
    ensures value { result ≡ pid_passes watched.now pid }
    ensures pids_after { pids.new ≡ pids_without watched.now pid pids.old }
{
    if section::pids::has(watched, pid) {
        return false;
    }
    demux_packets::forget(pids, pid);
    true
}

// Whether a packet is passed over.
fn pass(watched: &[u64], pids: &mut [u64], packet: &[u8]) -> bool
    requires { Looks watched.now pids.old }
    ensures value { result ≡ passes watched.now packet.now }
    ensures pids_after { pids.new ≡ pids_after watched.now packet.now pids.old }
{
    match packet::read(packet) {
        Packet::Malformed => false,
        Packet::Nothing => true,
        Packet::Payload(load) => pass_pid(watched, pids, load.pid),
    }
}

// How many of the first `most` packets are passed over, one after another, up to the first that is not.
pub fn pass_over(watched: &[u64], pids: &mut [u64], packets: &[u8], most: usize) -> usize
    requires looks { Looks watched.now pids.old }
    requires most_in_bounds { most * 188 ≤ length packets.now }
    ensures { passed result pids.new ≡ passed_from most watched.now packets.now pids.old }
{
    for n in 0..most {
        let at = n * packet::PACKET_BYTES;
        let to = at + packet::PACKET_BYTES;
        if !pass(watched, pids, &packets[at..to]) {
            return n;
        }
    }
    most
}
