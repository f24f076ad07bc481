// Reads a log from standard input and prints a line for each record; last how many there were, or where it had to stop.
#![tactic(auto)]

use log_records::ReadError;
use std::io;
use std::io::Write;

// A proved loop has to end, and nothing says that an input does: the turns are counted, up to a number that no run uses up.
fn run(stdin: &mut impl io::Read, stdout: &mut impl Write, buf: &mut [u8; 13]) -> io::Result<()> {
    let mut place = 0u64;
    let mut count = 0u64;
    for _ in 0..u64::MAX {
        match log_reader::read_record(stdin, buf)? {
            Ok(Some(n)) => {
                let Ok(Some(r)) = log_records::read_record(buf, 0) else {
                    return Ok(());
                };
                log_lines::say_record(stdout, r)?;
                place = place.wrapping_add(n as u64);
                count = count.wrapping_add(1);
            }
            Ok(None) => return log_lines::say_count(stdout, count),
            Err(ReadError::Unknown) => return log_lines::say_place(stdout, b"38 unknown ", place),
            Err(ReadError::Cut) => return log_lines::say_place(stdout, b"39 cut ", place),
        }
    }
    Ok(())
}

fn main(rt: HostRuntime) -> io::Result<()> {
    let mut stdout = rt.stdout();
    if program_input::arg_count(&rt) != 1 {
        return entry_lines::say(&mut stdout, b"usage: show_log < LOG\n");
    }
    let mut buf = [0u8; 13];
    run(&mut rt.stdin(), &mut stdout, &mut buf)
}
