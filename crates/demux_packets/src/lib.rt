// One packet over the words of the PIDs and the section buffers, without the gate: what it comes to, and its payload read (docs/RULES.md, "Packets").
#![tactic(auto)]

ghost use Rattle.std.specs.Prelude.{◌≡◌, ◌<◌, ◌≤◌, length};
ghost use Rattle.streams.specs.Store.{with_words, pids_read, buffers_read, places_read, count_read, InWords};
ghost use Rattle.demux_packets.specs.Plans.{plan_of, load_plan, buffer_plan, no_words, Lent, Reads};

use assemble::Words;
use packet::{Load, Packet};
use section::ids::Pid;

// A payload that is read: into which buffer, and whether its PID takes that buffer with this packet.
#[derive(Clone, Copy)]
pub struct Reading {
    pub load: Load,
    pub number: usize,
    pub fresh: bool,
}

// What a packet comes to.
#[derive(Clone, Copy)]
pub enum Plan {
    // 30
    Malformed,
    // No payload that can be read.
    Nothing,
    // Its PID is not watched, and holds nothing then.
    Unwatched(Pid),
    // 43
    NoBuffer,
    Read(Reading),
}

// ---- what a packet comes to

// The watch is asked once, then for the buffer.
pub fn judge(packet: &[u8], words: &[u64], pids: &[u64], count: usize) -> Plan
    requires { Lent words.now pids.now count }
    ensures { result ≡ plan_of words.now count pids.now packet.now }
{
    match packet::read(packet) {
        Packet::Malformed => Plan::Malformed,
        Packet::Nothing => Plan::Nothing,
        Packet::Payload(load) => judge_load(load, words, pids, count),
    }
}

fn judge_load(load: Load, words: &[u64], pids: &[u64], count: usize) -> Plan
    requires lent { Lent words.now pids.now count }
    requires pid_bound { load.pid.0 < 8192 }
    ensures { result ≡ load_plan words.now count pids.now load }
{
    let pid = load.pid;
    if section::pids::has(words, pid) {
        return judge_buffer(load, pids, count);
    }
    Plan::Unwatched(pid)
}

// The PID's own buffer, else the lowest that no PID holds.
fn judge_buffer(load: Load, pids: &[u64], count: usize) -> Plan
    requires in_bounds { (32768 ≤ length pids.now) × (count ≤ 8192) }
    requires pid_bound { load.pid.0 < 8192 }
    ensures { result ≡ buffer_plan count pids.now load }
{
    let own = streams::inner::words(pids, load.pid);
    let number = streams::inner::buffer(own.number, count);
    if number < count {
        return Plan::Read(Reading {
            load,
            number,
            fresh: false,
        });
    }
    let free = streams::inner::lowest_free(pids, count);
    if free < count {
        return Plan::Read(Reading {
            load,
            number: free,
            fresh: true,
        });
    }
    Plan::NoBuffer
}

// ---- what it leaves

// The words of a PID that is not watched become 0.
pub fn forget(pids: &mut [u64], pid: Pid)
    requires { InWords pids.old pid }
    ensures { pids.new ≡ with_words pids.old pid no_words }
{
    streams::inner::put(
        pids,
        pid,
        Words {
            number: 0,
            counter: 0,
            first: 0,
            size: 0,
        },
    );
}

// The payload is read whole: the words of its PID and its buffer are written, and the places tell where the sections are that it finished. How many they are.
pub fn read(
    pids: &mut [u64],
    buffers: &mut [u8],
    places: &mut [u64],
    reading: Reading,
    packet: &[u8],
) -> usize
    requires { Reads pids.old buffers.old places.old reading packet.now }
    ensures value { result ≡ count_read reading.number reading.fresh pids.old buffers.old reading.load packet.now }
    ensures pids_after { pids.new ≡ pids_read reading.number reading.fresh pids.old buffers.old reading.load packet.now }
    ensures buffers_after { buffers.new ≡ buffers_read reading.number reading.fresh pids.old buffers.old reading.load packet.now }
    ensures places_after { places.new ≡ places_read reading.number reading.fresh pids.old buffers.old reading.load packet.now places.old }
{
    let load = reading.load;
    let number = reading.number;
    let words = streams::inner::words(pids, load.pid);
    let from = number * assemble::BUFFER_BYTES;
    let to = from + assemble::BUFFER_BYTES;
    let stepped = assemble::take(
        &mut buffers[from..to],
        number,
        reading.fresh,
        words,
        load,
        packet,
        places,
    );
    streams::inner::put(pids, load.pid, stepped.words);
    stepped.count
}
