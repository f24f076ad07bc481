// A run of a log (docs/RULES.md, "Logs"): the rows of a gate and a set collector over lent memory, opened, and what a section comes to before anything is
// written: 42, 10, 11, 12, 37, a failure, or a section that arrived.
#![tactic(auto)]

ghost use Rattle.std.specs.Prelude.{◌≡◌, length};
ghost use Rattle.section.specs.Judged.{rule_of, judged_of};
ghost use Rattle.store.specs.Store.{store};
ghost use Rattle.offers.specs.Offers.{read_as, read_of};
ghost use Rattle.log_state.specs.State.{is_with, is_without, run_of, can_open, opened_of, take_no, gate_whole, ruled_by, ruling_by, RulingOk, FromOk};

use answers::{Outcome, Refusal};
use ring::Ring;
use section::header::{ChangeRule, Judged, Parts};
use section::ids::Origin;
use store::Sets;

// How sets are taken: with their PIDs; without, which is given up (41); or as before it was given up, by the older definition, which knows no PIDs.
#[derive(Clone, Copy)]
pub enum Pids {
    With,
    Without,
    Before,
}

// What a log is made with.
#[derive(Clone, Copy)]
pub struct Settings {
    // How many keys the gate keeps; 0 acts as 1.
    pub capacity: u64,
    // Whether a section that repeats what was seen is emitted too.
    pub repeats: bool,
    // The number of the change rule: 1 or 2.
    pub rule: u64,
    // How many rows the collector keeps.
    pub limit: usize,
    // The size of a cell.
    pub size: usize,
    // How many cells there are.
    pub count: usize,
    // How sets are taken.
    pub pids: Pids,
}

#[derive(Clone, Copy)]
pub struct Run {
    pub ring: Ring,
    pub repeats: bool,
    pub rule: u64,
    pub sets: Sets,
    pub pids: Pids,
}

#[derive(Clone, Copy)]
pub struct Opened {
    pub answer: Outcome,
    pub run: Run,
}

// Why a section is not taken: it has more than 4,098 bytes (42), or a refusal (10, 11, 12, 37).
#[derive(Clone, Copy)]
pub enum TakeError {
    TooLong,
    Refused(Refusal),
}

// The key of a section that the gate takes, and its parts.
#[derive(Clone, Copy)]
pub struct Sight {
    pub key: u64,
    pub parts: Parts,
}

// A record of a failure, short or not; or a section that is to be looked up and collected.
#[derive(Clone, Copy)]
pub enum Ruling {
    Failed(bool),
    Arrived(Sight),
}

// The number of what a section comes to: 7, 42, or the refusal's.
pub fn take_number(answer: Result<(), TakeError>) -> u8
    ensures { result ≡ take_no answer }
{
    match answer {
        Ok(()) => 7,
        Err(TakeError::TooLong) => 42,
        Err(TakeError::Refused(refusal)) => refusal.number(),
    }
}

impl Pids {
    pub fn is_with(self) -> bool
        ensures { result ≡ is_with self }
    {
        matches!(self, Pids::With)
    }

    pub fn is_without(self) -> bool
        ensures { result ≡ is_without self }
    {
        matches!(self, Pids::Without)
    }
}

fn run_of(settings: Settings) -> Run
    ensures { result ≡ run_of settings }
{
    let pids = settings.pids;
    Run {
        ring: Ring {
            capacity: settings.capacity,
            used: 0,
            first: 0,
        },
        repeats: settings.repeats,
        rule: settings.rule,
        sets: Sets {
            limit: settings.limit,
            size: settings.size,
            count: settings.count,
            used: 0,
            evictions: 0,
            clock: 0,
        },
        pids,
    }
}

// Neither 41 nor 13, by how much is lent.
fn can_open(
    settings: Settings,
    keys: usize,
    changes: usize,
    heads: usize,
    slots: usize,
    cells: usize,
) -> bool
    ensures { result ≡ can_open settings keys changes heads slots cells }
{
    let all = ring::room(settings.capacity);
    let pids = settings.pids;
    let sets = Sets {
        limit: settings.limit,
        size: settings.size,
        count: settings.count,
        used: 0,
        evictions: 0,
        clock: 0,
    };
    (all <= keys)
        & (all <= changes)
        & ChangeRule::is_known(settings.rule)
        & store::settings_fit(sets, heads, slots, cells)
        & !pids.is_without()
}

// Opens a run: no rows, counts 0; 41, 13 or 7. Nothing lent is read or written; a refusal gives back the run that was asked for.
pub fn open(
    settings: Settings,
    keys: &[u64],
    changes: &[u64],
    heads: &[u64],
    slots: &[u32],
    cells: &[u8],
) -> Opened
    ensures { result ≡ opened_of settings (length keys.now) (length changes.now) (length heads.now) (length slots.now) (length cells.now) }
{
    let run = run_of(settings);
    let pids = settings.pids;
    if pids.is_without() {
        return Opened {
            answer: Err(Refusal::NoPid),
            run,
        };
    }
    if can_open(
        settings,
        keys.len(),
        changes.len(),
        heads.len(),
        slots.len(),
        cells.len(),
    ) {
        return Opened {
            answer: Ok(()),
            run,
        };
    }
    Opened {
        answer: Err(Refusal::TooLittle),
        run,
    }
}

// Whether the gate's rows fit, there is such a change rule, and sets are taken: a run without PIDs came from no opening.
fn gate_whole(run: Run, keys: usize, changes: usize) -> bool
    ensures { result ≡ gate_whole run keys changes }
{
    let ring = run.ring;
    let pids = run.pids;
    ring::is_whole(ring, keys, changes) & ChangeRule::is_known(run.rule) & !pids.is_without()
}

// 31 where the section is too short for its CRC, 3 where the CRC does not fit.
fn read_from(from: Origin, rule: u64, section: &[u8]) -> Result<Ruling, TakeError>
    ensures { result ≡ ruled_by rule section.now (read_as from (length section.now) (judged_of (rule_of rule) section.now)) }
{
    match section::header::judge(section, ChangeRule::of(rule)) {
        Judged::Short => Ok(Ruling::Failed(true)),
        Judged::Mismatch(_, _) => Ok(Ruling::Failed(false)),
        Judged::Sound(parts) => Ok(Ruling::Arrived(Sight {
            key: section::header::key(from, parts.table_id, parts.extension, parts.number),
            parts,
        })),
    }
}

// 12, 37, then 31 or 3.
fn read(rule: u64, input: u8, pid: u16, section: &[u8]) -> Result<Ruling, TakeError>
    ensures value { result ≡ ruled_by rule section.now (read_of rule input pid section.now) }
    ensures from_ok { FromOk input pid result }
{
    match Origin::make(input, pid) {
        Ok(from) => read_from(from, rule, section),
        Err(refusal) => Err(TakeError::Refused(refusal)),
    }
}

// What a section comes to, before anything is written; of the gate's slices only their lengths are asked for.
pub fn judge(
    run: Run,
    keys: usize,
    changes: usize,
    heads: &[u64],
    slots: &[u32],
    cells: &[u8],
    input: u8,
    pid: u16,
    section: &[u8],
) -> Result<Ruling, TakeError>
    ensures value { result ≡ ruling_by run keys changes (store run.sets heads.now slots.now cells.now) input pid section.now }
    ensures ruling_ok { RulingOk run keys changes (store run.sets heads.now slots.now cells.now) input pid section.now result }
{
    if 4098 < section.len() {
        return Err(TakeError::TooLong);
    }
    let sets = run.sets;
    if gate_whole(run, keys, changes) {
        if store::is_whole(sets, heads, slots, cells) {
            if store::counters_full(sets) {
                return Err(TakeError::Refused(Refusal::CounterFull));
            }
            return read(run.rule, input, pid, section);
        }
    }
    Err(TakeError::Refused(Refusal::NotWhole))
}
