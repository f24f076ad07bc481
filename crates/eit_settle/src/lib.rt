// A row becomes the newest, and what becomes of its set is done (docs/RULES.md, "Collectors").
#![tactic(auto)]

ghost use Rattle.std.specs.Prelude.{◌≡◌, ◌+◌, ◌*◌, ◌<◌, ◌≤◌, length};
ghost use Rattle.rows.specs.Rows.{touched};
ghost use Rattle.eit_state.specs.State.{rows};
ghost use Rattle.eit_enter.specs.Entering.{answered, SettleOk};
ghost use Rattle.eit_settle.specs.Settle.{conflicting, marked_heads, settled_as, settled};

use answers::Refusal;
use arrivals::Arrival;
use eit_becomes::Becomes;
use eit_state::{Eit, PushAnswer, Pushed};

// 22: the row in conflict becomes the newest, and nothing else changes.
pub fn conflict(heads: &mut [u64], i: usize, clock: u64) -> PushAnswer
    requires { i * 12 + 12 ≤ length heads.old }
    ensures value { result ≡ conflicting }
    ensures heads_after { heads.new ≡ touched clock i heads.old }
{
    rows::touch(heads, i, clock);
    PushAnswer::Refused(Refusal::Conflict)
}

// A set that goes out or enters its schedule is marked.
fn mark_where(heads: &mut [u64], b: bool, i: usize)
    requires { i * 12 + 12 ≤ length heads.old }
    ensures { heads.new ≡ marked_heads b i heads.old }
{
    if b {
        rows::set_mark(heads, i, 1);
    }
}

// What becomes of the set in row i, done.
fn settle_as(
    eit: Eit,
    heads: &[u64],
    slots: &[u32],
    schedule_heads: &mut [u64],
    units: &mut [u32],
    a: Arrival,
    i: usize,
    b: Becomes,
) -> Pushed
    requires { SettleOk (rows eit heads.now slots.now schedule_heads.old units.old) i }
    ensures { answered result heads.now slots.now schedule_heads.new units.new ≡ settled_as b (rows eit heads.now slots.now schedule_heads.old units.old) a i }
{
    match b {
        Becomes::Stays => Pushed {
            answer: PushAnswer::Nothing,
            eit,
        },
        Becomes::GoesOut => Pushed {
            answer: PushAnswer::Set(i),
            eit,
        },
        Becomes::OutOfRange => Pushed {
            answer: PushAnswer::Refused(Refusal::Range),
            eit,
        },
        Becomes::Enters => eit_enter::enter(eit, heads, slots, schedule_heads, units, a, i),
    }
}

// Row i becomes the newest, by the clock that has risen, and what becomes of its set is done.
pub fn settle(
    eit: Eit,
    heads: &mut [u64],
    slots: &[u32],
    schedule_heads: &mut [u64],
    units: &mut [u32],
    a: Arrival,
    i: usize,
) -> Pushed
    requires { SettleOk (rows eit heads.old slots.now schedule_heads.old units.old) i }
    ensures { answered result heads.new slots.now schedule_heads.new units.new ≡ settled (rows eit heads.old slots.now schedule_heads.old units.old) a i }
{
    let sets = eit.sets;
    rows::touch(heads, i, sets.clock);
    let b = eit_becomes::becomes_of(heads, slots, a, i);
    mark_where(heads, eit_becomes::is_marked(b), i);
    settle_as(eit, heads, slots, schedule_heads, units, a, i, b)
}
