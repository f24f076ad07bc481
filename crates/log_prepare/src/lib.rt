// What comes before the sections of a list are looked at (docs/RULES.md, "Logs"): the list is judged, and then a run is opened. A part of the checker and of
// the writer.
#![tactic(auto)]

ghost use Rattle.std.specs.Prelude.{◌≡◌, length};
ghost use Rattle.rules_logs.specs.Sections.{sections_in};
ghost use Rattle.log_prepare.specs.Prepare.{error_of, prepared_of, ready_of};

use log_list::ListError;
use log_state::{Opened, Pids, Run, Settings};

// Why no run is opened: a section of the list is too long (42), the list is cut (10), sets would be taken without PIDs (41), or the memory is too little (13).
#[derive(Clone, Copy, Debug, PartialEq, Eq)]
pub enum PrepareError {
    TooLong,
    Cut,
    NoPid,
    TooLittle,
}

impl From<ListError> for PrepareError {
    ghost from_gives = { λ e made. made ≡ error_of e };

    fn from(error: ListError) -> PrepareError {
        match error {
            ListError::Cut => PrepareError::Cut,
            ListError::TooLong => PrepareError::TooLong,
        }
    }
}

fn ready(pids: Pids, opened: Opened) -> Result<Run, PrepareError>
    ensures { result ≡ ready_of pids opened }
{
    if pids.is_without() {
        return Err(PrepareError::NoPid);
    }
    let answer = opened.answer;
    let run = opened.run;
    match answer {
        Ok(()) => Ok(run),
        Err(_) => Err(PrepareError::TooLittle),
    }
}

// Nothing lent is written.
pub fn prepare(
    settings: Settings,
    sections: &[u8],
    keys: &[u64],
    changes: &[u64],
    heads: &[u64],
    slots: &[u32],
    cells: &[u8],
) -> Result<Run, PrepareError>
    ensures { result ≡ prepared_of settings (sections_in sections.now) (length keys.now) (length changes.now) (length heads.now) (length slots.now) (length cells.now) }
{
    log_list::judge(sections)?;
    let pids = settings.pids;
    ready(
        pids,
        log_state::open(settings, keys, changes, heads, slots, cells),
    )
}
