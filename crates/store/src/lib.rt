// A collector's settings and counts, and when they and the memory lent beside them are whole (docs/RULES.md, "Layouts" and "Answers", 10 and 13).
#![tactic(auto)]

ghost use Rattle.std.specs.Prelude.{◌≡◌, true, ◌≢◌};
ghost use Rattle.without_pid.specs.Pids.{without_pid};
ghost use Rattle.store.specs.Store.{store, settings_fit, whole_of, counters_full, risen_sets};

use without_pid::Looked;

// Settings and counts. `limit` keys at most; `count` cells of `size` bytes; rows 0 to used - 1 are in use. `clock` rises with each touch.
#[derive(Clone, Copy)]
pub struct Sets {
    pub limit: usize,
    pub size: usize,
    pub count: usize,
    pub used: usize,
    pub evictions: u64,
    pub clock: u64,
}

impl Sets {
    // The key limit of a collector for which none is asked.
    pub const DEFAULT_LIMIT: usize = 256;
}

// Whether the evictions or the clock are at their end: if so, a push answers 11.
pub fn counters_full(sets: Sets) -> bool
    ensures { result ≡ counters_full sets }
{
    (sets.evictions == u64::MAX) | (sets.clock == u64::MAX)
}

// One touch more.
pub fn risen(sets: Sets) -> Sets
    requires { sets.clock ≢ 18446744073709551615 }
    ensures { result ≡ risen_sets sets }
{
    Sets {
        clock: sets.clock + 1,
        ..sets
    }
}

// Whether the settings are in range and the lent slices long enough for them.
pub fn settings_fit(sets: Sets, heads: usize, slots: usize, cells: usize) -> bool
    ensures { result ≡ settings_fit sets heads slots cells }
{
    let small = (12 <= sets.size) & (sets.size <= 4096) & (sets.count <= 65535);
    if small {
        (sets.limit <= heads / rows::HEAD_WORDS)
            & (sets.limit <= slots / rows::ROW_WORDS)
            & (sets.count * sets.size <= cells)
    } else {
        false
    }
}

// Whether the store is whole (if it is not, a call answers 10) and, of one that is, whether a row in use has no PID (41).
pub fn look(sets: Sets, heads: &[u64], slots: &[u32], cells: &[u8]) -> Looked
    ensures whole_value { result.whole ≡ whole_of (store sets heads.now slots.now cells.now) }
    ensures without_value { result.whole ≡ true → result.without ≡ without_pid heads.now sets.used }
{
    if settings_fit(sets, heads.len(), slots.len(), cells.len()) {
        if sets.used <= sets.limit {
            return without_pid::look(heads, slots, sets.count as u16, sets.size as u16, sets.used);
        }
    }
    Looked {
        whole: false,
        without: false,
    }
}

// Whether the store is whole.
pub fn is_whole(sets: Sets, heads: &[u64], slots: &[u32], cells: &[u8]) -> bool
    ensures { result ≡ whole_of (store sets heads.now slots.now cells.now) }
{
    look(sets, heads, slots, cells).whole
}
