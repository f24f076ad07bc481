// The program association table, ISO/IEC 13818-1 2.4.4.3.
#![tactic(auto)]

ghost use Rattle.std.specs.Prelude.{◌≡◌, ◌+◌, ◌≤◌, ◌<◌, length};
ghost use Rattle.laws.specs.Bits.{add_bits};
ghost use Rattle.section.specs.Header.{byte_at, word16};
ghost use Rattle.pat.specs.Pat.{pid_of, with_group, program_pids, readable, pat_of, with_programs};

use section::bytes::{section_length, wide, word};
use section::ids::{Pid, ProgramNumber};

// Whether a section can be read as a PAT.
#[derive(Clone, Copy)]
pub enum Pat {
    Readable,
    Unreadable,
}

// Adds to the set n the PID of each program that a PAT lists. Program 0 names the network's PID and is left out. What cannot be read as a PAT
// leaves n as it was.
pub fn programs(s: &[u8], n: &mut [u64; 128]) -> Pat
    ensures value { result ≡ pat_of s.now }
    ensures n_after { n.new ≡ with_programs s.now n.old }
{
    if !is_readable(s) {
        return Pat::Unreadable;
    }
    let crc = s.len() - 4;
    add_groups(&s[8..crc], n);
    Pat::Readable
}

// Long form, table_id 0, the length that section_length says, and whole groups of four between the eight bytes of the header and the CRC.
pub fn is_readable(s: &[u8]) -> bool
    ensures { result ≡ readable s.now }
{
    if s.len() < 12 {
        return false;
    }
    (s[0] == 0) & (128 <= s[1]) & (s.len() == 3 + section_length(s)) & ((s.len() - 12) % 4 == 0)
}

// Adds the PIDs of the groups, four bytes each.
fn add_groups(s: &[u8], n: &mut [u64; 128])
    ensures { n.new ≡ add_bits n.old (program_pids s.now) }
{
    for group in s.chunks_exact(4) {
        add_group(group, n);
    }
}

// Adds the PID of a group, unless it is program 0's.
fn add_group(group: &[u8], n: &mut [u64; 128])
    requires { length group.now ≡ 4 }
    ensures { n.new ≡ with_group group.now n.old }
{
    let number = program_number(group);
    if number.0 != 0 {
        section::pids::add(n, program_pid(group));
    }
}

// The first 16 bits of a group.
fn program_number(group: &[u8]) -> ProgramNumber
    requires { length group.now ≡ 4 }
    ensures { result.0 ≡ word16 (byte_at group.now 0) (byte_at group.now 1) }
{
    ProgramNumber(word(group, 0))
}

// The last 13 bits of a group; three bits before them are reserved.
fn program_pid(group: &[u8]) -> Pid
    requires { length group.now ≡ 4 }
    ensures { (result.0 ≡ pid_of (byte_at group.now 2) (byte_at group.now 3)) × (result.0 < 8192) }
{
    Pid((wide(group[2]) % 32 * 256 + wide(group[3])) as u16)
}
