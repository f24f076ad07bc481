// A log checked against a section list (docs/RULES.md, "Logs"): whether it is exactly the log that the list gives, and where not, the first place and what
// is wrong there.
#![tactic(auto)]

ghost use Rattle.std.specs.Prelude.{◌≡◌};
ghost use Rattle.log_compare.specs.Compare.{passed, records_in};
ghost use Rattle.log_list.specs.List.{WholeFrom};
ghost use Rattle.log_state.specs.State.{lent};
ghost use Rattle.log_sections.specs.Steps.{shown_in, memory};
ghost use Rattle.log_check.specs.Check.{error_no, place_of, IsEntry, Walked, check_as, checked_of};

use log_compare::Wrong;
use log_entries::Entry;
use log_list::Sections;
use log_prepare::PrepareError;
use log_state::{Run, Settings};

// Why a log is not that of the sections: its first wrong record; or no run was opened, and nothing was looked at.
#[derive(Clone, Copy, Debug, PartialEq, Eq)]
pub enum CheckError {
    Record(Wrong),
    Run(PrepareError),
}

impl From<Wrong> for CheckError {
    ghost use Rattle.log_check.specs.declared.CheckError.TheVariants.{Record};

    ghost from_gives = { λ wrong e. e ≡ Record wrong };

    fn from(wrong: Wrong) -> CheckError {
        CheckError::Record(wrong)
    }
}

impl From<PrepareError> for CheckError {
    ghost use Rattle.log_check.specs.declared.CheckError.TheVariants.{Run};

    ghost from_gives = { λ error e. e ≡ Run error };

    fn from(error: PrepareError) -> CheckError {
        CheckError::Run(error)
    }
}

impl CheckError {
    // A record of no kind (38), cut off (39), missing, too many or another one (40); the list has too long a section (42), is cut (10), sets would be taken
    // without PIDs (41), or the memory lent is too little for the settings (13).
    pub fn number(self) -> u8
        ensures { result ≡ error_no self }
    {
        match self {
            CheckError::Record(Wrong::Unknown(_)) => 38,
            CheckError::Record(Wrong::CutOff(_)) => 39,
            CheckError::Record(Wrong::Missing(_)) => 40,
            CheckError::Record(Wrong::TooMany(_)) => 40,
            CheckError::Record(Wrong::Differs(_)) => 40,
            CheckError::Run(PrepareError::TooLong) => 42,
            CheckError::Run(PrepareError::Cut) => 10,
            CheckError::Run(PrepareError::NoPid) => 41,
            CheckError::Run(PrepareError::TooLittle) => 13,
        }
    }

    // Where the wrong record stands, in bytes from 0.
    pub fn place(self) -> Option<usize>
        ensures { result ≡ place_of self }
    {
        match self {
            CheckError::Record(Wrong::Unknown(place)) => Some(place),
            CheckError::Record(Wrong::CutOff(place)) => Some(place),
            CheckError::Record(Wrong::Missing(place)) => Some(place),
            CheckError::Record(Wrong::TooMany(place)) => Some(place),
            CheckError::Record(Wrong::Differs(place)) => Some(place),
            CheckError::Run(_) => None,
        }
    }
}

// The records of one section beside the log at this place; the place after them.
fn beside(log: &[u8], place: usize, entry: Entry) -> Result<usize, Wrong>
    requires { IsEntry entry }
    ensures { result ≡ passed log.now place (records_in (shown_in entry)) }
{
    let bytes = entry.bytes;
    let length = entry.length;
    log_compare::compare(log, place, &bytes[0..length])
}

// The sections of a whole list, up to the first whose records are not those of the log.
fn walk(
    run: Run,
    keys: &mut [u64],
    changes: &mut [u64],
    heads: &mut [u64],
    slots: &mut [u32],
    cells: &mut [u8],
    sections: &[u8],
    log: &[u8],
) -> Result<(), Wrong>
    requires { WholeFrom sections.now 0 }
    ensures { Walked sections.now log.now (lent run keys.old changes.old heads.old slots.old cells.old) result (memory keys.new changes.new heads.new slots.new cells.new) }
{
    let mut now = run;
    let mut at = 0;
    for place in Sections::new(sections, 0) {
        let step = log_sections::take_one(now, keys, changes, heads, slots, cells, sections, place);
        let entry = step.entry;
        at = beside(log, at, entry)?;
        now = step.run;
    }
    log_compare::finish(log, at)
}

// Whether the log is exactly what the sections give with these settings. The memory lent is for the run alone: it is as before where no run was opened.
pub fn check(
    settings: Settings,
    sections: &[u8],
    log: &[u8],
    keys: &mut [u64],
    changes: &mut [u64],
    heads: &mut [u64],
    slots: &mut [u32],
    cells: &mut [u8],
) -> Result<(), CheckError>
    ensures { check_as result (memory keys.new changes.new heads.new slots.new cells.new) ≡ checked_of settings sections.now log.now (memory keys.old changes.old heads.old slots.old cells.old) }
{
    let run = log_prepare::prepare(settings, sections, keys, changes, heads, slots, cells)?;
    walk(run, keys, changes, heads, slots, cells, sections, log)?;
    Ok(())
}
