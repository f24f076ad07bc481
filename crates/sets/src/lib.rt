// The set collector: sections in, complete sets of sections out (docs/RULES.md, "Collectors"). The host keeps a `Sets` by value and lends
// three slices at every call: heads (12 words a row), slots (288 words a row) and cells. Every call takes any content of them and has one
// answer; a refusal leaves them as they were, but 22, which touches the key.
#![tactic(auto)]

ghost use Rattle.std.specs.Prelude.{◌≡◌};
ghost use Rattle.store.specs.Store.{store, asked};
ghost use Rattle.sets_settle.specs.Settle.{after_push};
ghost use Rattle.sets.specs.Store.{after_open, after_clear, opened_of, pushed_of, cleared_of, next_of};

use answers::{Outcome, Refusal};
use readers::Next;
use sets_settle::{PushAnswer, Pushed};
use store::Sets;

#[derive(Clone, Copy)]
pub struct Opened {
    pub answer: Outcome,
    pub sets: Sets,
}

#[derive(Clone, Copy)]
pub struct Cleared {
    pub answer: Outcome,
    pub sets: Sets,
}

// Opens a collector: no rows, counts 0. Nothing lent is written; a refusal gives back the settings that were asked for.
pub fn open(
    limit: usize,
    size: usize,
    count: usize,
    heads: &[u64],
    slots: &[u32],
    cells: &[u8],
) -> Opened
    ensures { after_open result heads.now slots.now cells.now ≡ opened_of (store (asked limit size count) heads.now slots.now cells.now) }
{
    let sets = Sets {
        limit,
        size,
        count,
        used: 0,
        evictions: 0,
        clock: 0,
    };
    if store::settings_fit(sets, heads.len(), slots.len(), cells.len()) {
        Opened {
            answer: Ok(()),
            sets,
        }
    } else {
        Opened {
            answer: Err(Refusal::TooLittle),
            sets,
        }
    }
}

// Offers a section, with the PID that it came on or without.
pub fn push(
    sets: Sets,
    heads: &mut [u64],
    slots: &mut [u32],
    cells: &mut [u8],
    input: u8,
    pid: Option<u16>,
    bytes: &[u8],
) -> Pushed
    ensures { after_push result heads.new slots.new cells.new ≡ pushed_of (store sets heads.old slots.old cells.old) input pid bytes.now }
{
    match sets_push::admit(sets, heads, slots, cells, input, pid, bytes) {
        Err(refusal) => Pushed {
            answer: PushAnswer::Refused(refusal),
            sets,
        },
        Ok(entry) => { sets_push::push_whole(sets, heads, slots, cells, entry, bytes) }
    }
}

// Empties all rows: 10, 41 where a row has no PID, else 7. The count of evictions and the clock stay.
pub fn clear(sets: Sets, heads: &[u64], slots: &[u32], cells: &[u8]) -> Cleared
    ensures { after_clear result heads.now slots.now cells.now ≡ cleared_of (store sets heads.now slots.now cells.now) }
{
    let seen = store::look(sets, heads, slots, cells);
    if seen.whole {
        if seen.without {
            return Cleared {
                answer: Err(Refusal::NoPid),
                sets,
            };
        }
        return Cleared {
            answer: Ok(()),
            sets: Sets {
                limit: sets.limit,
                size: sets.size,
                count: sets.count,
                used: 0,
                evictions: sets.evictions,
                clock: sets.clock,
            },
        };
    }
    Cleared {
        answer: Err(Refusal::NotWhole),
        sets,
    }
}

// Has the set in a row another section (10, 41 where a row has no PID, 8 or 9)? The first filled slot at or after `from`: its number, and where its bytes are in the cells.
pub fn next_section(
    sets: Sets,
    heads: &[u64],
    slots: &[u32],
    cells: &[u8],
    row: usize,
    from: usize,
) -> Next
    ensures { result ≡ next_of (store sets heads.now slots.now cells.now) row from }
{
    let seen = store::look(sets, heads, slots, cells);
    if seen.whole {
        if seen.without {
            return readers::no_section(Err(Refusal::NoPid));
        }
        if row < sets.used {
            return readers::next_slot(rows::row_slots(heads, slots, row), sets.size, from);
        }
        return readers::no_section(Ok(false));
    }
    readers::no_section(Err(Refusal::NotWhole))
}
