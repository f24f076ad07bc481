// The clock that a stream carries (EN 300 468, 5.2.5 and 5.2.6): the time of a TDT or TOT section, as a monitor prints it and as a number of seconds.
#![tactic(auto)]

ghost use Rattle.std.specs.Prelude.{◌≡◌, true, ◌≤◌, length};
ghost use Rattle.clocks.specs.Clocks.{is_clock, stamped_of, clock_of};

use times::Day;

// A day and the six BCD digits of a time of that day, each digit 0 to 9, on or after the first day that has a date.
#[derive(Clone, Copy)]
pub struct Stamp {
    pub day: u16,
    pub hours: u8,
    pub minutes: u8,
    pub seconds: u8,
}

const TDT: u8 = 0x70;

const TOT: u8 = 0x73;

// UTC_time stands in bytes 3 to 7.
const BEHIND: usize = 8;

fn is_clock(section: &[u8]) -> bool
    ensures value { result ≡ is_clock section.now }
    ensures in_bounds { result ≡ true → 8 ≤ length section.now }
{
    if section.len() < BEHIND {
        return false;
    }
    (section[0] == TDT) | (section[0] == TOT)
}

// A day and six digits; none where a digit is above 9 or the day has no date.
fn stamped(day: Day, hours: u8, minutes: u8, seconds: u8) -> Option<Stamp>
    ensures { result ≡ stamped_of day hours minutes seconds }
{
    times::date_of(day)?;
    times::time_of(hours, minutes, seconds)?;
    Some(Stamp {
        day: day.0,
        hours,
        minutes,
        seconds,
    })
}

// The time that a TDT or TOT tells.
pub fn read(section: &[u8]) -> Option<Stamp>
    ensures { result ≡ clock_of section.now }
{
    if is_clock(section) {
        let day = times::day_of(section[3], section[4]);
        return stamped(day, section[5], section[6], section[7]);
    }
    None
}
