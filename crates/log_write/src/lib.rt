// The log that a section list gives, written into a room (docs/RULES.md, "Logs"). The list is run twice: a log that is too long for the room must leave it as
// it was, so it is measured first.
#![tactic(auto)]

ghost use Rattle.std.specs.Prelude.{◌≡◌};
ghost use Rattle.log_list.specs.List.{WholeFrom, givens_from};
ghost use Rattle.log_sections.specs.Steps.{memory};
ghost use Rattle.log_write.specs.Write.{error_no, write_as, as_writer, ran_twice, written_of};

use log_prepare::PrepareError;
use log_state::{Pids, Run, Settings};

// Why no log is written: it is longer than the room, or no run was opened.
#[derive(Clone, Copy, Debug, PartialEq, Eq)]
pub enum WriteError {
    NoRoom,
    Run(PrepareError),
}

impl From<PrepareError> for WriteError {
    ghost use Rattle.log_write.specs.declared.WriteError.TheVariants.{Run};

    ghost from_gives = { λ error e. e ≡ Run error };

    fn from(error: PrepareError) -> WriteError {
        WriteError::Run(error)
    }
}

impl WriteError {
    // The log is longer than the room (44); the list has too long a section (42), is cut (10), sets would not be taken with PIDs (41), or the memory lent is
    // too little for the settings (13).
    pub fn number(self) -> u8
        ensures { result ≡ error_no self }
    {
        match self {
            WriteError::NoRoom => 44,
            WriteError::Run(PrepareError::TooLong) => 42,
            WriteError::Run(PrepareError::Cut) => 10,
            WriteError::Run(PrepareError::NoPid) => 41,
            WriteError::Run(PrepareError::TooLittle) => 13,
        }
    }
}

// A writer writes with PIDs alone: any other setting is without, which is 41.
fn as_writer(settings: Settings) -> Settings
    ensures { result ≡ as_writer settings }
{
    let pids = settings.pids;
    if pids.is_with() {
        return settings;
    }
    Settings {
        pids: Pids::Without,
        ..settings
    }
}

// A whole list with an opened run: opening writes nothing, so the second run starts from the same. The log's length is told.
fn write_open(
    run: Run,
    sections: &[u8],
    room: &mut [u8],
    keys: &mut [u64],
    changes: &mut [u64],
    heads: &mut [u64],
    slots: &mut [u32],
    cells: &mut [u8],
) -> Result<usize, WriteError>
    requires { WholeFrom sections.now 0 }
    ensures { write_as result room.new (memory keys.new changes.new heads.new slots.new cells.new) ≡ ran_twice run room.old (memory keys.old changes.old heads.old slots.old cells.old) (givens_from sections.now 0) }
{
    match log_measure::measure(
        run,
        keys,
        changes,
        heads,
        slots,
        cells,
        sections,
        room.len(),
    ) {
        None => Err(WriteError::NoRoom),
        Some(length) => {
            log_fill::write_all(run, keys, changes, heads, slots, cells, sections, room);
            Ok(length)
        }
    }
}

// The log that the sections give with these settings, from the start of the room on; its length is told. The memory lent is for the run alone: it is as before
// where no run was opened; the room is as before where no log is written.
pub fn write(
    settings: Settings,
    sections: &[u8],
    room: &mut [u8],
    keys: &mut [u64],
    changes: &mut [u64],
    heads: &mut [u64],
    slots: &mut [u32],
    cells: &mut [u8],
) -> Result<usize, WriteError>
    ensures { write_as result room.new (memory keys.new changes.new heads.new slots.new cells.new) ≡ written_of settings sections.now room.old (memory keys.old changes.old heads.old slots.old cells.old) }
{
    let asked = as_writer(settings);
    let run = log_prepare::prepare(asked, sections, keys, changes, heads, slots, cells)?;
    write_open(run, sections, room, keys, changes, heads, slots, cells)
}
