// What an offer to the gate comes to before a row is looked at (docs/RULES.md, "Gate" and "Answers"): 10, 11, 12, 37, a CRC failure with
// what tells it, or a section that is to be looked up. No slice of the store is lent.
#![tactic(auto)]

ghost use Rattle.std.specs.Prelude.{◌≡◌, length};
ghost use Rattle.section.specs.Judged.{rule_of, judged_of};
ghost use Rattle.offers.specs.Offers.{is_short, arrival_of, read_as, read_of, Taken, verdict_of, VerdictOk};

use answers::Refusal;
use counters::Counters;
use section::header::{ChangeRule, Judged, Parts};
use section::ids::Origin;

// What tells one section from another at the gate: its key, the version and the change number that it came with. And its table_id.
#[derive(Clone, Copy)]
pub struct Arrival {
    pub key: u64,
    pub version: u8,
    pub change: u32,
    pub table_id: u8,
}

// What a section failed by: too short to hold its CRC, with its length (31), or the CRC stored and the one worked out, which differ (3).
#[derive(Clone, Copy)]
pub enum Failure {
    TooShort(usize),
    Mismatch(u32, u32),
}

impl Failure {
    pub fn is_short(self) -> bool
        ensures { result ≡ is_short self }
    {
        match self {
            Failure::TooShort(_) => true,
            Failure::Mismatch(_, _) => false,
        }
    }
}

// A refusal, a failure, or a section that is to be looked up.
#[derive(Clone, Copy)]
pub enum Verdict {
    Refused(Refusal),
    Failed(Failure),
    Arrived(Arrival),
}

// 10 where the store is not whole, 11 where a counter is at its end, then what the section and where it came from say. `rule` is the number of the change rule.
pub fn judge(
    whole: bool,
    counters: Counters,
    rule: u64,
    input: u8,
    pid: u16,
    section: &[u8],
) -> Verdict
    ensures value { result ≡ verdict_of whole counters rule input pid section.now }
    ensures verdict_ok { VerdictOk whole counters section.now result }
{
    if !whole {
        return Verdict::Refused(Refusal::NotWhole);
    }
    if counters::any_full(counters) {
        return Verdict::Refused(Refusal::CounterFull);
    }
    read(rule, input, pid, section)
}

// 12, 37, then 31 or 3.
fn read(rule: u64, input: u8, pid: u16, section: &[u8]) -> Verdict
    ensures value { result ≡ read_of rule input pid section.now }
    ensures taken { Taken section.now result }
{
    match Origin::make(input, pid) {
        Ok(from) => read_from(from, rule, section),
        Err(refusal) => Verdict::Refused(refusal),
    }
}

// 31 where the section is too short for its CRC, 3 where the CRC does not fit.
fn read_from(from: Origin, rule: u64, section: &[u8]) -> Verdict
    ensures { result ≡ read_as from (length section.now) (judged_of (rule_of rule) section.now) }
{
    match section::header::judge(section, ChangeRule::of(rule)) {
        Judged::Short => Verdict::Failed(Failure::TooShort(section.len())),
        Judged::Mismatch(stored, worked) => Verdict::Failed(Failure::Mismatch(stored, worked)),
        Judged::Sound(parts) => Verdict::Arrived(arrive(from, parts)),
    }
}

fn arrive(from: Origin, parts: Parts) -> Arrival
    ensures { result ≡ arrival_of from parts }
{
    Arrival {
        key: section::header::key(from, parts.table_id, parts.extension, parts.number),
        version: parts.version,
        change: parts.change,
        table_id: parts.table_id,
    }
}
