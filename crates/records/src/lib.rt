// The records that programs read from standard input: a PID (two bytes, high byte first) and a section, with or without an input (one byte) before them. One is held at a time, so an input may be of any length.
#![tactic(auto)]

ghost use Rattle.std.specs.Prelude.{◌≡◌, ◌≤◌, IfOk, length};
ghost use Rattle.records.specs.Next.{Within};

use program_input::read_full;
use section::bytes::wide;
use std::io;
use std::io::Read;

// The bytes of the longest record: a PID, and a section of 3 + 4,095 bytes.
pub const LONGEST: usize = 4100;

// What reading a record found: its length, the end of the input, or an end inside a record.
#[derive(Clone, Copy)]
pub enum Next {
    Record(usize),
    End,
    Cut,
}

// Reads one record to the start of buf: the PID, the three bytes that end in section_length, and as many more as that says.
pub fn read_record(stdin: &mut impl Read, buf: &mut [u8]) -> io::Result<Next>
    requires { 4100 ≡ length buf.old }
    ensures { IfOk result Within }
{
    let got = read_full(stdin, &mut buf[0..5])?;
    if got == 0 {
        return Ok(Next::End);
    }
    if got < 5 {
        return Ok(Next::Cut);
    }
    let n = wide(buf[3]) % 16 * 256 + wide(buf[4]);
    let more = read_full(stdin, &mut buf[5..5 + n])?;
    if more < n {
        return Ok(Next::Cut);
    }
    Ok(Next::Record(5 + n))
}

// Reads the byte that records with an input begin with; `None` at the end of standard input.
pub fn read_input(stdin: &mut impl Read) -> io::Result<Option<u8>> {
    let mut byte = [0u8; 1];
    if read_full(stdin, &mut byte)? == 0 {
        return Ok(None);
    }
    Ok(Some(byte[0]))
}
