// The EIT collector's settings and counts, and when they and the memory lent beside them are whole (docs/RULES.md, "Layouts" and "Answers", 10
// and 13): what every other part of the collector stands on.
#![tactic(auto)]

ghost use Rattle.std.specs.Prelude.{◌≡◌, true, ◌≢◌};
ghost use Rattle.without_pid.specs.Pids.{without_pid};
ghost use Rattle.eit_state.specs.State.{store, schedules_fit, settings_fit, whole_of, counters_full, with_sets, risen_eit, with_schedules, push_number, asked, opened_as, cleared_as};

use answers::{Outcome, Refusal};
use store::Sets;
use without_pid::Looked;

// Settings and counts. `sets` has the settings and the counts of the sets, and its limit is that of the schedules too; schedules 0 to
// schedules - 1 are in use.
#[derive(Clone, Copy)]
pub struct Eit {
    pub sets: Sets,
    pub schedules: usize,
    pub schedule_evictions: u64,
}

impl Eit {
    // The key limit of a collector for which none is asked.
    pub const DEFAULT_LIMIT: usize = 256;
}

// What a section leads to. A set or a schedule that goes out is in the row told, until the next call that is no question.
#[derive(Clone, Copy)]
pub enum PushAnswer {
    Nothing,
    Set(usize),
    Schedule(usize),
    Refused(Refusal),
}

impl PushAnswer {
    pub fn number(self) -> u8
        ensures { result ≡ push_number self }
    {
        match self {
            PushAnswer::Nothing => 4,
            PushAnswer::Set(_) => 5,
            PushAnswer::Schedule(_) => 6,
            PushAnswer::Refused(refusal) => refusal.number(),
        }
    }
}

#[derive(Clone, Copy)]
pub struct Pushed {
    pub answer: PushAnswer,
    pub eit: Eit,
}

// What opening, clearing and dropping hand back.
#[derive(Clone, Copy)]
pub struct Turned {
    pub answer: Outcome,
    pub eit: Eit,
}

// Whether the lent slices have the limit's schedules, and no more are in use.
fn schedules_fit(eit: Eit, schedule_heads: usize, units: usize) -> bool
    ensures { result ≡ schedules_fit eit schedule_heads units }
{
    let sets = eit.sets;
    (sets.limit <= schedule_heads / rows::HEAD_WORDS)
        & (sets.limit <= units / schedules::SCHEDULE_WORDS)
        & (eit.schedules <= sets.limit)
}

// Whether the settings are in range and the lent slices long enough for them.
pub fn settings_fit(
    eit: Eit,
    heads: usize,
    slots: usize,
    cells: usize,
    schedule_heads: usize,
    units: usize,
) -> bool
    ensures { result ≡ settings_fit eit heads slots cells schedule_heads units }
{
    let sets = eit.sets;
    store::settings_fit(sets, heads, slots, cells) & schedules_fit(eit, schedule_heads, units)
}

// Whether the store is whole (if it is not, a call answers 10) and, of one that is, whether a set in use has no PID. Of schedules it is not said.
pub fn look(
    eit: Eit,
    heads: &[u64],
    slots: &[u32],
    cells: &[u8],
    schedule_heads: &[u64],
    units: &[u32],
) -> Looked
    ensures whole_value { result.whole ≡ whole_of (store eit heads.now slots.now cells.now schedule_heads.now units.now) }
    ensures without_value { result.whole ≡ true → result.without ≡ without_pid heads.now eit.sets.used }
{
    let sets = eit.sets;
    let seen = store::look(sets, heads, slots, cells);
    if seen.whole {
        if schedules_fit(eit, schedule_heads.len(), units.len()) {
            let whole = schedules::schedules_whole(
                schedule_heads,
                units,
                sets.count as u16,
                sets.size as u16,
                eit.schedules,
            );
            return Looked {
                whole: whole,
                without: seen.without,
            };
        }
    }
    Looked {
        whole: false,
        without: false,
    }
}

// Whether the store is whole.
pub fn is_whole(
    eit: Eit,
    heads: &[u64],
    slots: &[u32],
    cells: &[u8],
    schedule_heads: &[u64],
    units: &[u32],
) -> bool
    ensures { result ≡ whole_of (store eit heads.now slots.now cells.now schedule_heads.now units.now) }
{
    let seen = look(eit, heads, slots, cells, schedule_heads, units);
    seen.whole
}

// Whether one of the two counts of evictions, or the clock, is at its end.
pub fn counters_full(eit: Eit) -> bool
    ensures { result ≡ counters_full eit }
{
    let sets = eit.sets;
    store::counters_full(sets) | (eit.schedule_evictions == u64::MAX)
}

// The sets in use and their evictions become those.
pub fn with_sets(eit: Eit, used: usize, evictions: u64) -> Eit
    ensures { result ≡ with_sets eit used evictions }
{
    let was = eit.sets;
    let sets = Sets {
        limit: was.limit,
        size: was.size,
        count: was.count,
        used,
        evictions,
        clock: was.clock,
    };
    Eit {
        sets,
        schedules: eit.schedules,
        schedule_evictions: eit.schedule_evictions,
    }
}

// So the schedules.
pub fn with_schedules(eit: Eit, schedules: usize, schedule_evictions: u64) -> Eit
    ensures { result ≡ with_schedules eit schedules schedule_evictions }
{
    let sets = eit.sets;
    Eit {
        sets,
        schedules,
        schedule_evictions,
    }
}

// One touch more: the clock is that of the sets and of the schedules.
pub fn risen(eit: Eit) -> Eit
    requires { eit.sets.clock ≢ 18446744073709551615 }
    ensures { result ≡ risen_eit eit }
{
    let sets = eit.sets;
    Eit {
        sets: store::risen(sets),
        schedules: eit.schedules,
        schedule_evictions: eit.schedule_evictions,
    }
}

// A collector as it is opened over slices of these lengths: no rows, counts 0. A refusal (13) gives back the settings that were asked for.
pub fn opened(
    limit: usize,
    size: usize,
    count: usize,
    heads: usize,
    slots: usize,
    cells: usize,
    schedule_heads: usize,
    units: usize,
) -> Turned
    ensures { result ≡ opened_as (settings_fit (asked limit size count) heads slots cells schedule_heads units) (asked limit size count) }
{
    let sets = Sets {
        limit,
        size,
        count,
        used: 0,
        evictions: 0,
        clock: 0,
    };
    let eit = Eit {
        sets,
        schedules: 0,
        schedule_evictions: 0,
    };
    if settings_fit(eit, heads, slots, cells, schedule_heads, units) {
        return Turned {
            answer: Ok(()),
            eit,
        };
    }
    Turned {
        answer: Err(Refusal::TooLittle),
        eit,
    }
}

// A collector as it is cleared: every set and every schedule leaves, and the counts of evictions and the clock stay; 10 where the store is not whole.
pub fn cleared(eit: Eit, whole: bool) -> Turned
    ensures { result ≡ cleared_as whole eit }
{
    if whole {
        let sets = eit.sets;
        let then = with_sets(eit, 0, sets.evictions);
        return Turned {
            answer: Ok(()),
            eit: with_schedules(then, 0, eit.schedule_evictions),
        };
    }
    Turned {
        answer: Err(Refusal::NotWhole),
        eit,
    }
}
