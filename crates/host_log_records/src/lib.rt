// The records of a log for a host in another language (docs/RULES.md, "Logs"): one read, and those that a monitor appends after an offer and after a set. Every content of
// what is lent has one answer.
#![tactic(auto)]

ghost use Rattle.std.specs.Prelude.{◌≡◌, [], ◌∷◌, ◌≤◌, length, take};
ghost use Rattle.host_words.specs.Answers.{words};
ghost use Rattle.host_log_records.specs.Calls.{record_words, log_read, answer_of, laid_over, RoomFor, Made, made, offer_made, set_made};

use answers::Refusal;
use gate_state::Answer;
use log_entries::Entry;
use log_records::Record;
use offers::Failure;
use section::header::ChangeRule;

// The longest section of a section list.
const LONGEST: usize = 4098;

fn write_record(fields: &mut [u64; 12], r: Record, next: usize)
    ensures { fields.new ≡ record_words r next }
{
    *fields = [
        r.kind as u64,
        r.input as u64,
        r.pid as u64,
        r.table_id as u64,
        r.extension as u64,
        r.number as u64,
        r.version as u64,
        r.change as u64,
        r.length as u64,
        r.current_next as u64,
        r.last as u64,
        next as u64,
    ];
}

// The record at a place: 8 writes its fields and the place after it; 9, 38 and 39 leave the words.
pub fn read(log: &[u8], place: u64, fields: &mut [u64; 12]) -> u8
    ensures { words result fields.new ≡ log_read log.now place fields.old }
{
    let at = place as usize;
    match log_records::read_record(log, at) {
        Ok(Some(r)) => {
            write_record(fields, r, at + log_records::record_size(r.kind));
            8
        }
        Ok(None) => 9,
        Err(error) => error.number(),
    }
}

// The answer of a gate that a number names; what is neither 1, 2, 3 nor 31 is a refusal.
fn answer_of(number: u8) -> Answer
    ensures { result ≡ answer_of number }
{
    if number == 1 {
        return Answer::Emitted;
    }
    if number == 2 {
        return Answer::Suppressed;
    }
    if number == 3 {
        return Answer::Failed(Failure::Mismatch(0, 0));
    }
    if number == 31 {
        return Answer::Failed(Failure::TooShort(0));
    }
    Answer::Refused(Refusal::BadPid)
}

// The first bytes of a record; what is behind them stays.
fn lay(all: &[u8; 23], n: usize, bytes: &mut [u8])
    requires { (n ≤ 23) × (n ≤ length bytes.old) }
    ensures { bytes.new ≡ laid_over bytes.old (take n all.now) }
{
    let whole = &all[..];
    cells::keep(bytes, 0, &whole[0..n]);
}

// The bytes of a record, and how many there are.
fn write_entry(entry: Entry, bytes: &mut [u8], told: &mut [u64; 1])
    requires { RoomFor entry (length bytes.old) }
    ensures bytes_after { bytes.new ≡ laid_over bytes.old (take entry.length entry.bytes) }
    ensures told_after { told.new ≡ entry.length ∷ [] }
{
    let all = entry.bytes;
    let n = entry.length;
    lay(&all, n, bytes);
    *told = [n as u64];
}

// The record of what the gate answered to an offer: 42 of a section over 4,098 bytes, 13 of a change rule that there is not, else 7 with 0, 6 or 13 bytes.
pub fn offer_record(
    answer: u8,
    change_rule: u64,
    input: u32,
    pid: u32,
    section: &[u8],
    bytes: &mut [u8; 13],
    told: &mut [u64; 1],
) -> u8
    ensures { made result bytes.new told.new ≡ offer_made answer change_rule input pid section.now bytes.old told.old }
{
    if LONGEST < section.len() {
        return 42;
    }
    if ChangeRule::is_known(change_rule) {
        let i = host_words::inputs::number(input);
        let p = host_words::pids::number(pid);
        let rule = ChangeRule::of(change_rule);
        return match log_makers::offer_record(answer_of(answer), rule, i, p, section) {
            Ok(entry) => {
                write_entry(entry, bytes, told);
                7
            }
            Err(_) => 42,
        };
    }
    13
}

// The record of the set that a section completed, 10 bytes: 7. 0 bytes where there is none, and without a PID.
pub fn set_record(
    input: u32,
    pid: u32,
    section: &[u8],
    bytes: &mut [u8; 10],
    told: &mut [u64; 1],
) -> u8
    ensures { made result bytes.new told.new ≡ set_made input pid section.now bytes.old }
{
    let i = host_words::inputs::number(input);
    let p = host_words::pids::maybe(pid);
    let entry = log_makers::set_record(i, p, section);
    write_entry(entry, bytes, told);
    7
}
