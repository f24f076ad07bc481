// Reads a transport stream from standard input and writes the sections that its packets finished on watched PIDs: records of a PID (two bytes, high byte first)
// and a section, as the other programs read them. Nothing else.
#![tactic(auto)]

use std::io;

fn main(rt: HostRuntime) -> io::Result<()> {
    stream_reader::run(&mut rt.stdin(), &mut rt.stdout(), false)
}
