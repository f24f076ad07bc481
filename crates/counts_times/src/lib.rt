// When `counts` writes a line: at the first time that the stream tells, at one that lies an interval or more behind that of the last line, and at one that goes
// backwards.
#![tactic(auto)]

ghost use Rattle.std.specs.Prelude.{◌≡◌};
ghost use Rattle.counts_times.specs.Due.{seconds_at, moment_of, no_line, last_at, is_due};

use clocks::Stamp;

// The second of the last line that a time had, where there was one.
#[derive(Clone, Copy)]
pub struct Last {
    pub any: bool,
    pub at: u64,
}

// No line yet.
pub fn none() -> Last
    ensures { result ≡ no_line }
{
    Last { any: false, at: 0 }
}

pub fn at(second: u64) -> Last
    ensures { result ≡ last_at second }
{
    Last {
        any: true,
        at: second,
    }
}

// The seconds of a day that six digits tell; 0 where one is above 9.
fn seconds(hours: u8, minutes: u8, seconds: u8) -> u32
    ensures { result ≡ seconds_at hours minutes seconds }
{
    let Some(s) = times::time_of(hours, minutes, seconds) else {
        return 0;
    };
    s.0
}

// The second that a time is.
pub fn moment(stamp: Stamp) -> u64
    ensures { result ≡ moment_of stamp }
{
    stamp.day as u64 * 86400 + seconds(stamp.hours, stamp.minutes, stamp.seconds) as u64
}

// Whether a line is due at a second.
pub fn is_due(last: Last, second: u64, interval: u64) -> bool
    ensures { result ≡ is_due last second interval }
{
    if last.any {
        if second < last.at {
            return true;
        }
        return interval <= second - last.at;
    }
    true
}
