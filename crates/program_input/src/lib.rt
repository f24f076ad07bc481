// What a program is given: its arguments, and the bytes of its input and of files.
#![tactic(auto)]

ghost use Rattle.std.specs.Prelude.{◌≡◌, ◌<◌, ◌≤◌, length, IfOk};
ghost use Rattle.program_input.specs.Numbers.{is_digit, grown, number_in};

use std::env::{Env, FillError};
use std::io;
use std::io::{ErrorKind, Read};

// Copies argument i to the start of buf and answers its length: 0 where it is missing or longer than buf. Argument 0 is the program's name.
pub fn arg(rt: &impl Env, i: usize, buf: &mut [u8]) -> usize
    ensures { result ≤ length buf.new }
{
    match rt.arg(i, buf) {
        Ok(n) => n,
        Err(_) => 0,
    }
}

// Whether there is such an argument, of any length.
pub fn has_arg(rt: &impl Env, i: usize) -> bool {
    let mut start = [0u8; 1];
    match rt.arg(i, &mut start) {
        Ok(_) | Err(FillError::TooLong) => true,
        Err(FillError::NotPresent) => false,
    }
}

// How many arguments there are, the program's name among them.
pub fn arg_count(rt: &impl Env) -> usize {
    for n in 0..usize::MAX {
        if !has_arg(rt, n) {
            return n;
        }
    }
    usize::MAX
}

// Whether an argument is this word, of at most 64 bytes.
pub fn is_word(rt: &impl Env, i: usize, word: &[u8]) -> bool {
    let mut text = [0u8; 64];
    let n = arg(rt, i, &mut text);
    &text[..n] == word
}

fn is_digit(c: u8) -> bool
    ensures { result ≡ is_digit c }
{
    (b'0' <= c) & (c <= b'9')
}

// One more digit. What has no room in 64 bits is the largest number that has.
fn grown(v: u64, digit: u8) -> u64
    requires { digit < 10 }
    ensures { result ≡ grown v digit }
{
    if 1844674407370955160 < v {
        return u64::MAX;
    }
    v * 10 + digit as u64
}

// The number that decimal digits write; `None` of no digits, and of what is no digit.
pub fn number_of(text: &[u8]) -> Option<u64>
    ensures { result ≡ number_in text.now }
{
    if text.len() == 0 {
        return None;
    }
    let mut v = 0;
    for c in text {
        if !is_digit(*c) {
            return None;
        }
        v = grown(v, *c - b'0');
    }
    Some(v)
}

// The number that an argument of at most 64 bytes writes.
pub fn number_at(rt: &impl Env, i: usize) -> Option<u64> {
    let mut text = [0u8; 64];
    let n = arg(rt, i, &mut text);
    number_of(&text[..n])
}

// Reads until buf is full or the input ends: how many bytes stand at the start of buf. A proved loop has to end, and nothing says that an input does: the turns
// are counted, up to a number that no run uses up.
pub fn read_full(input: &mut impl Read, buf: &mut [u8]) -> io::Result<usize>
    ensures { IfOk result (λ n. n ≤ length buf.new) }
{
    let mut done = 0;
    for _ in 0..u64::MAX {
        if done >= buf.len() {
            break;
        }
        match input.read(&mut buf[done..]) {
            Ok(0) => break,
            Ok(n) => done += n,
            Err(e) => {
                if e.kind() != ErrorKind::Interrupted {
                    return Err(e);
                }
            }
        }
    }
    Ok(done)
}
