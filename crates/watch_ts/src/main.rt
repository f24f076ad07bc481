// Reads a transport stream from standard input and says of each section that a packet finished on a watched PID what the gate makes of it, and the totals last.
#![tactic(auto)]

use std::io;

fn main(rt: HostRuntime) -> io::Result<()> {
    stream_reader::run(&mut rt.stdin(), &mut rt.stdout(), true)
}
