// What a monitor counts beside the counters of its gate and collectors: the answers of the packet layer and of the collectors, a number a column.
#![tactic(auto)]

ghost use Rattle.std.specs.Prelude.{◌≡◌};
ghost use Rattle.tallies.specs.Columns.{more_of, counted_in};

pub mod eit;
pub mod sets;

// How many columns there are: nobuffer; sets, conflicts and missing cells of the set collector; present/following sets, schedules, conflicts, missing cells,
// schedules out of range and other refusals of the EIT collector. A column past the last counts nothing.
pub const COLUMNS: usize = 10;

// A packet whose PID needs a section buffer, and none is free (43).
pub const NO_BUFFER: usize = 0;

// One more; at its end a count stays.
fn more(n: u64) -> u64
    ensures { result ≡ more_of n }
{
    if n < u64::MAX { n + 1 } else { n }
}

// One more in a column.
pub fn count(tally: &mut [u64; 10], column: usize)
    ensures { tally.new ≡ counted_in tally.old column }
{
    if column < COLUMNS {
        tally[column] = more(tally[column]);
    }
}
