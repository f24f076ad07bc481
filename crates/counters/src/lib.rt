// The gate's counters (docs/RULES.md, "Gate"): one record that each offer which is judged counts up. Its fields have no end of their own: a call
// refuses a section while one of them is at its largest number.
#![tactic(auto)]

ghost use Rattle.std.specs.Prelude.{◌≡◌, Bool, false, ◌+◌, ◌<◌, ◌^◌};
ghost use Rattle.counters.specs.Counters.{zeroes, any_full, CanCount, plus_of, counted_of, failed_of};

const LAST: u64 = 18446744073709551615;

#[derive(Clone, Copy)]
pub struct Counters {
    pub completed: u64,
    pub emitted: u64,
    pub suppressed: u64,
    // Of these the sections too short to hold their CRC, and those with another one than their bytes give.
    pub crc_failures: u64,
    pub short_sections: u64,
    pub crc_mismatches: u64,
    pub evictions: u64,
}

pub fn fresh() -> Counters
    ensures { result ≡ zeroes }
{
    Counters {
        completed: 0,
        emitted: 0,
        suppressed: 0,
        crc_failures: 0,
        short_sections: 0,
        crc_mismatches: 0,
        evictions: 0,
    }
}

// 11: whether one of them is at its end. Where none is, one more of each fits.
pub fn any_full(c: Counters) -> bool
    ensures value { result ≡ any_full c }
    ensures can_count { result ≡ false → CanCount c }
{
    (c.completed == LAST)
        | (c.emitted == LAST)
        | (c.suppressed == LAST)
        | (c.crc_failures == LAST)
        | (c.short_sections == LAST)
        | (c.crc_mismatches == LAST)
        | (c.evictions == LAST)
}

// One more section that passed its CRC, emitted or suppressed, and one key that left where `evicted`.
pub fn counted(c: Counters, emitted: bool, evicted: bool) -> Counters
    requires { CanCount c }
    ensures { result ≡ counted_of c emitted evicted }
{
    Counters {
        completed: plus(c.completed, true),
        emitted: plus(c.emitted, emitted),
        suppressed: plus(c.suppressed, !emitted),
        crc_failures: c.crc_failures,
        short_sections: c.short_sections,
        crc_mismatches: c.crc_mismatches,
        evictions: plus(c.evictions, evicted),
    }
}

// One more section that did not, too short or with another CRC, and nothing else.
pub fn failed(c: Counters, short: bool) -> Counters
    requires { CanCount c }
    ensures { result ≡ failed_of c short }
{
    Counters {
        completed: plus(c.completed, true),
        emitted: c.emitted,
        suppressed: c.suppressed,
        crc_failures: plus(c.crc_failures, true),
        short_sections: plus(c.short_sections, short),
        crc_mismatches: plus(c.crc_mismatches, !short),
        evictions: c.evictions,
    }
}

// One more where the test is true.
fn plus(n: u64, more: bool) -> u64
    requires { n + 1 < 2 ^ 64 }
    ensures { result ≡ plus_of n more }
{
    if more { n + 1 } else { n }
}
