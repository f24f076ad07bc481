// Why a section is none that a reader takes (docs/RULES.md, "Entries"): 35, a table_id that is none of the reader's, or 36, a loop that does not end where its length
// says. A section is judged by itself, before anything of it is listed.
#![tactic(auto)]

ghost use Rattle.std.specs.Prelude.{◌≡◌, ◌+◌, ◌<◌, ◌≤◌, length, take};
ghost use Rattle.section.specs.Header.{byte_at};
ghost use Rattle.listing.specs.Store.{found_from};
ghost use Rattle.rules_networks.specs.Networks.{is_of, length_wrong, broken_in, nit_broken, sdt_broken, broken_of, fault_of};
ghost use Rattle.network_faults.specs.Faults.{Short, LoopIn, NitIn, Inside, count12, judged_by, past_place, nit_loops};

use listing::{Loop, Walked};
use rules_networks::Table;
use section::bytes;
use section::bytes::wide;

// Why a section is refused.
#[derive(Clone, Copy)]
pub enum Fault {
    // Its table_id is none of the reader's: 35.
    OtherTable,
    // A loop does not end where its length says, and at this place it shows: 36.
    BrokenLoop(usize),
}

// Byte i, and 0 past the end.
pub fn byte_at(s: &[u8], i: usize) -> usize
    ensures { (result ≡ byte_at s.now i) × (result < 256) }
{
    if s.len() <= i {
        return 0;
    }
    wide(s[i])
}

// The low 12 bits of two bytes: a length.
pub fn count_at(s: &[u8], at: usize) -> usize
    requires { (at + 2 ≤ length s.now) × (at < 4294967296) }
    ensures { (result ≡ count12 s.now at) × (result < 4096) }
{
    wide(s[at]) % 16 * 256 + wide(s[at + 1])
}

// Whether a table_id is one of the reader's.
fn is_of(table: Table, id: usize) -> bool
    ensures { result ≡ is_of table id }
{
    match table {
        Table::Nit => (id == 0x40) | (id == 0x41),
        Table::Bat => id == 0x4A,
        Table::Sdt => (id == 0x42) | (id == 0x46),
        Table::None => false,
    }
}

// Under 3 bytes, or not 3 + section_length.
fn length_wrong(s: &[u8]) -> bool
    ensures { (result ≡ length_wrong s.now) × Short result (length s.now) }
{
    if s.len() < 3 {
        return true;
    }
    s.len() != 3 + bytes::section_length(s)
}

// What runs past its loop does so at its place.
fn ended_well(walked: Walked) -> Result<(), Fault>
    requires { Inside walked }
    ensures { result ≡ judged_by (past_place walked) }
{
    match walked {
        Walked::Done(_) => Ok(()),
        Walked::Past(at, _) => Err(Fault::BrokenLoop(at)),
    }
}

// The loop from `at` to `end`, whose first `left` bytes are descriptors and whose entries have headers of so many bytes. A list without room for an entry: the walk
// decides, and nothing is written.
fn judge_loop(s: &[u8], header: usize, at: usize, left: usize, end: usize) -> Result<(), Fault>
    requires loop_in { LoopIn (length s.now) header at left end }
    requires behind { 0 < at }
    ensures { result ≡ judged_by (broken_in (found_from header (take end s.now) at left)) }
{
    let of = Loop {
        header,
        network: 0,
        number: 0,
        skip: 0,
    };
    let mut none = [0u32; 1];
    let walked = listing::descriptors(&s[0..end], of, at, left, &mut none, 0);
    ended_well(walked)
}

// The two loops of a NIT or BAT section that has room for its two lengths: n is the first.
fn judge_nit_loops(s: &[u8], n: usize) -> Result<(), Fault>
    requires { NitIn (length s.now) n }
    ensures { result ≡ judged_by (nit_loops s.now n) }
{
    let second = 10 + n;
    judge_loop(s, entry_words::STREAM_HEADER, 10, n, second)?;
    let end = s.len() - 4;
    if second + 2 + count_at(s, second) != end {
        return Err(Fault::BrokenLoop(second));
    }
    judge_loop(s, entry_words::STREAM_HEADER, second + 2, 0, end)
}

fn judge_nit(s: &[u8]) -> Result<(), Fault>
    ensures { result ≡ judged_by (nit_broken s.now) }
{
    if length_wrong(s) {
        return Err(Fault::BrokenLoop(1));
    }
    if s.len() < 16 {
        return Err(Fault::BrokenLoop(8));
    }
    let n = count_at(s, 8);
    if s.len() < 16 + n {
        return Err(Fault::BrokenLoop(8));
    }
    judge_nit_loops(s, n)
}

fn judge_sdt(s: &[u8]) -> Result<(), Fault>
    ensures { result ≡ judged_by (sdt_broken s.now) }
{
    if length_wrong(s) {
        return Err(Fault::BrokenLoop(1));
    }
    if s.len() < 15 {
        return Err(Fault::BrokenLoop(11));
    }
    judge_loop(s, entry_words::SERVICE_HEADER, 11, 0, s.len() - 4)
}

fn judge_loops(table: Table, s: &[u8]) -> Result<(), Fault>
    ensures { result ≡ judged_by (broken_of table s.now) }
{
    match table {
        Table::Nit => judge_nit(s),
        Table::Bat => judge_nit(s),
        Table::Sdt => judge_sdt(s),
        Table::None => Ok(()),
    }
}

// Whether a reader takes a section. 35 before 36.
pub fn judge(table: Table, s: &[u8]) -> Result<(), Fault>
    ensures { result ≡ judged_by (fault_of table s.now) }
{
    if is_of(table, byte_at(s, 0)) {
        return judge_loops(table, s);
    }
    Err(Fault::OtherTable)
}
