// The doing of what was decided on a section for the set collector (docs/RULES.md, "Collectors" and "Cells"): its row, slot and cell are written, its key
// becomes the newest, and a full row that is not marked goes out.
#![tactic(auto)]

ghost use Rattle.std.specs.Prelude.{◌≡◌, ◌+◌, ◌*◌, ◌<◌, ◌≤◌, length};
ghost use Rattle.store.specs.Store.{store};
ghost use Rattle.sets_plan.specs.Plan.{KeepOk, PlanOk};
ghost use Rattle.sets_settle.specs.Settle.{push_no, after_push, goes_out, settled_answer, settled_heads, kept_in, settled, carried};

use answers::Refusal;
use sets_plan::{Keeping, Plan};
use store::Sets;

// What a section leads to. A set that goes out is in the row told, until the next call that is no question.
#[derive(Clone, Copy)]
pub enum PushAnswer {
    Nothing,
    Set(usize),
    Refused(Refusal),
}

#[derive(Clone, Copy)]
pub struct Pushed {
    pub answer: PushAnswer,
    pub sets: Sets,
}

impl PushAnswer {
    // The number of the answer.
    pub fn number(self) -> u8
        ensures { result ≡ push_no self }
    {
        match self {
            PushAnswer::Nothing => 4,
            PushAnswer::Set(_) => 5,
            PushAnswer::Refused(refusal) => refusal.number(),
        }
    }
}

// Whether row i is full and not marked.
pub fn goes_out(heads: &[u64], slots: &[u32], i: usize) -> bool
    requires { (i * 12 + 12 ≤ length heads.now) × (i * 288 + 288 ≤ length slots.now) }
    ensures { result ≡ goes_out heads.now slots.now i }
{
    (rows::mark(heads, i) == 0) & rows::row_full(heads, slots, i)
}

// Row i becomes the newest, and goes out and is marked where it is full and not marked.
fn settle(heads: &mut [u64], slots: &[u32], clock: u64, i: usize) -> PushAnswer
    requires { (i * 12 + 12 ≤ length heads.old) × (i * 288 + 288 ≤ length slots.now) }
    ensures value { result ≡ settled_answer clock heads.old slots.now i }
    ensures heads_after { heads.new ≡ settled_heads clock heads.old slots.now i }
{
    rows::touch(heads, i, clock);
    if goes_out(heads, slots, i) {
        rows::set_mark(heads, i, 1);
        return PushAnswer::Set(i);
    }
    PushAnswer::Nothing
}

// The section's row, slot and cell are written; then the row is settled.
fn keep(
    sets: Sets,
    heads: &mut [u64],
    slots: &mut [u32],
    cells: &mut [u8],
    bytes: &[u8],
    k: Keeping,
) -> Pushed
    requires { KeepOk (store sets heads.old slots.old cells.old) bytes.now k }
    ensures { after_push result heads.new slots.new cells.new ≡ settled (kept_in (store sets heads.old slots.old cells.old) bytes.now k) k.room.row }
{
    let room = k.room;
    let then = Sets {
        limit: sets.limit,
        size: sets.size,
        count: sets.count,
        used: room.used,
        evictions: room.evictions,
        clock: sets.clock + 1,
    };
    rows::keep_head(heads, room, k.entry);
    rows::keep_slot(slots, room, k.entry, cells::slot_word(bytes.len(), k.cell));
    cells::keep(cells, k.cell * sets.size, bytes);
    Pushed {
        answer: settle(heads, slots, then.clock, room.row),
        sets: then,
    }
}

// Carries out what was decided.
pub fn carry(
    sets: Sets,
    heads: &mut [u64],
    slots: &mut [u32],
    cells: &mut [u8],
    bytes: &[u8],
    plan: Plan,
) -> Pushed
    requires { PlanOk (store sets heads.old slots.old cells.old) bytes.now plan }
    ensures { after_push result heads.new slots.new cells.new ≡ carried (store sets heads.old slots.old cells.old) bytes.now plan }
{
    match plan {
        Plan::Refuse(refusal) => Pushed {
            answer: PushAnswer::Refused(refusal),
            sets,
        },
        Plan::Silent => Pushed {
            answer: PushAnswer::Nothing,
            sets,
        },
        Plan::Conflict(i) => {
            rows::touch(heads, i, sets.clock + 1);
            Pushed {
                answer: PushAnswer::Refused(Refusal::Conflict),
                sets: store::risen(sets),
            }
        }
        Plan::Repeat(i) => Pushed {
            answer: settle(heads, slots, sets.clock + 1, i),
            sets: store::risen(sets),
        },
        Plan::Keep(k) => keep(sets, heads, slots, cells, bytes, k),
    }
}
