// Day numbers, second counts and calendar dates of the guide (EN 300 468, 5.2.4 and Annex C). A day number is no second count: each has its own type.
#![tactic(auto)]

ghost use Rattle.std.specs.Prelude.{◌≡◌, ◌*◌, ◌≤◌};
ghost use Rattle.times.specs.Times.{is_bcd, bcd_of, time_of, day_of, carry_for, date_of};

// A modified Julian day.
#[derive(Clone, Copy)]
pub struct Day(pub u16);

// A count of seconds: since midnight, or of a duration.
#[derive(Clone, Copy)]
pub struct Seconds(pub u32);

#[derive(Clone, Copy)]
pub struct Calendar {
    pub year: u16,
    pub month: u8,
    pub day: u8,
}

// Whether both digits of a byte are 0 to 9.
fn is_bcd(b: u8) -> bool
    ensures { result ≡ is_bcd b }
{
    (b / 16 <= 9) & (b % 16 <= 9)
}

// The number that the two digits of a byte write.
fn bcd(b: u8) -> u32
    ensures { result ≡ bcd_of b }
{
    (b / 16) as u32 * 10 + (b % 16) as u32
}

// Hours, minutes and seconds in six BCD digits. They are counted as they stand, 24:00:00 and 12:60:60 too: only a digit above 9 makes a time undefined.
pub fn time_of(hours: u8, minutes: u8, seconds: u8) -> Option<Seconds>
    ensures { result ≡ time_of hours minutes seconds }
{
    if is_bcd(hours) & is_bcd(minutes) & is_bcd(seconds) {
        Some(Seconds(bcd(hours) * 3600 + bcd(minutes) * 60 + bcd(seconds)))
    } else {
        None
    }
}

// The 16 bits of a day, high byte first.
pub fn day_of(high: u8, low: u8) -> Day
    ensures { result ≡ day_of high low }
{
    Day(high as u16 * 256 + low as u16)
}

// Annex C's K: months 13 and 14 of a year that begins in March are January and February of the next.
fn carry(months: u32) -> u32
    ensures { (result ≡ carry_for months) × (result ≤ 1) × (14 * result ≤ months) }
{
    if 14 <= months { 1 } else { 0 }
}

// The calendar date of a day, by Annex C in whole numbers; the names are the annex's. A day before 1900-03-01, the first of the annex's formulas, has none.
pub fn date_of(day: Day) -> Option<Calendar>
    ensures { result ≡ date_of day.0 }
{
    let mjd = day.0 as u32;
    if mjd < 15079 {
        return None;
    }
    let y = (100 * mjd - 1507820) / 36525;
    let days = y * 36525 / 100;
    let m = (10000 * mjd - 149561000 - 10000 * days) / 306001;
    let d = mjd - 14956 - days - m * 306001 / 10000;
    let k = carry(m);
    Some(Calendar {
        year: (1900 + y + k) as u16,
        month: (m - 1 - 12 * k) as u8,
        day: d as u8,
    })
}
