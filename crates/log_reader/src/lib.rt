// What the programs over logs read (docs/RULES.md, "Logs"): a log from standard input, and a section list from a file. One record and one section are held at a time, so both may be
// of any length.
#![tactic(auto)]

ghost use Rattle.std.specs.Prelude.{◌≡◌, ◌≤◌, IfOk, IfSome, length};

use log_list::ListError;
use log_records::ReadError;
use program_input::read_full;
use section::bytes::wide;
use std::fs::File;
use std::io;
use std::io::Read;
use std::rt::Files;

// ---- a log

// Reads the next record of the log to the start of buf: its size, `None` at the end of the log.
pub fn read_record(
    log: &mut impl Read,
    buf: &mut [u8],
) -> io::Result<Result<Option<usize>, ReadError>>
    requires { 13 ≡ length buf.old }
    ensures { IfOk result (λ r. IfOk r (λ o. IfSome o (λ n. n ≤ 13))) }
{
    if read_full(log, &mut buf[0..1])? == 0 {
        return Ok(Ok(None));
    }
    let size = log_records::record_size(buf[0]);
    if (size < 1) | (13 < size) {
        return Ok(Err(ReadError::Unknown));
    }
    let more = read_full(log, &mut buf[1..size])?;
    if more < size - 1 {
        return Ok(Err(ReadError::Cut));
    }
    Ok(Ok(Some(size)))
}

// ---- a section list

// Reads the next section of the list to the start of buf, with the five bytes of input, PID and length before it: how many bytes that is, `None` at the end of the list.
pub fn read_section(
    list: &mut impl Read,
    buf: &mut [u8],
) -> io::Result<Result<Option<usize>, ListError>>
    requires { 4103 ≡ length buf.old }
    ensures { IfOk result (λ r. IfOk r (λ o. IfSome o (λ n. (5 ≤ n) × (n ≤ 4103)))) }
{
    let got = read_full(list, &mut buf[0..5])?;
    if got == 0 {
        return Ok(Ok(None));
    }
    if got < 5 {
        return Ok(Err(ListError::Cut));
    }
    let n = wide(buf[3]) * 256 + wide(buf[4]);
    if 4098 < n {
        return Ok(Err(ListError::TooLong));
    }
    let more = read_full(list, &mut buf[5..5 + n])?;
    if more < n {
        return Ok(Err(ListError::Cut));
    }
    Ok(Ok(Some(5 + n)))
}

// The whole list, judged from its start by the first section that is bad. A proved loop has to end, and nothing says that an input does: the turns are counted, up to a number that no
// run uses up.
pub fn judge_list(list: &mut impl Read, buf: &mut [u8; 4103]) -> io::Result<Result<(), ListError>> {
    for _ in 0..u64::MAX {
        match read_section(list, buf)? {
            Ok(Some(_)) => {}
            Ok(None) => return Ok(Ok(())),
            Err(fault) => return Ok(Err(fault)),
        }
    }
    Ok(Err(ListError::Cut))
}

// Opens a file to read, or answers `None`: where it cannot be opened, or its path is no text. A folder opens and cannot be read, which a read of nothing tells.
pub fn open_list<R: Files>(rt: &R, path: &[u8]) -> Option<R::File> {
    let path = str::from_utf8(path).ok()?;
    let mut list = File::open(rt, path).ok()?;
    list.read(&mut []).ok()?;
    Some(list)
}
