// Reads standard input, records of a PID (two bytes, high byte first) and a section, and says of each what the gate makes of it, and the totals last.
#![tactic(auto)]

use std::io;

fn main(rt: HostRuntime) -> io::Result<()> {
    watcher::run(&mut rt.stdin(), &mut rt.stdout(), false)
}
