// The program `watch` once more, with a stored run of its own: PATs in several sections.
#![tactic(auto)]

use std::io;

fn main(rt: HostRuntime) -> io::Result<()> {
    watcher::run(&mut rt.stdin(), &mut rt.stdout(), false)
}
