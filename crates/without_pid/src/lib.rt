// Whether a row in use has no PID (docs/RULES.md, "Layouts"): the PID word of its head is 8192, a number that no PID has. Rows past those in use do not matter.
#![tactic(auto)]

ghost use Rattle.std.specs.Prelude.{◌≡◌, true, false, ◌+◌, ◌*◌, ◌≤◌, eqb, length, get_or};
ghost use Rattle.cells.specs.Cells.{all_whole};
ghost use Rattle.rows.specs.Rows.{rows_whole, row_slots};
ghost use Rattle.without_pid.specs.Pids.{without_pid};

use rows::Origin;

// What one pass over the rows in use tells: whether each slot of each row is whole, and whether a row has no PID.
#[derive(Clone, Copy)]
pub struct Looked {
    pub whole: bool,
    pub without: bool,
}

// Whether row i has one slot, filled and whole, and a PID, as most rows have: of such a row nothing more is asked.
fn is_plain(heads: &[u64], slots: &[u32], count: u16, size: u16, i: usize) -> bool
    requires { (i * 12 + 12 ≤ length heads.now) × (i * 288 + 288 ≤ length slots.now) × (12 ≤ size) × (size ≤ 4096) }
    ensures { result ≡ true → (all_whole count size (row_slots heads.now slots.now i) ≡ true) × (eqb (get_or heads.now (i * 12) 0) 8192 ≡ false) }
{
    if rows::last(heads, i) == 0 {
        if heads[i * rows::HEAD_WORDS] != Origin::NO_PID {
            return cells::filled_whole(rows::slot(slots, i, 0), count, size);
        }
    }
    false
}

// Both in one pass: every push makes it, and the time goes with the heads and slots that are read. It gathers and does not stop early.
// It stays a function of its own: put into a whole push, its loop lacks registers and reads the stack in each turn (docs/PERFORMANCE.md, "After the look back").
#[inline(never)]
pub fn look(heads: &[u64], slots: &[u32], count: u16, size: u16, used: usize) -> Looked
    requires { (used * 12 ≤ length heads.now) × (used * 288 ≤ length slots.now) × (12 ≤ size) × (size ≤ 4096) }
    ensures { (result.whole ≡ rows_whole heads.now slots.now count size used) × (result.without ≡ without_pid heads.now used) }
{
    let mut whole = true;
    let mut without = false;
    for i in (0..used).rev() {
        if is_plain(heads, slots, count, size, i) {
            continue;
        }
        whole &= rows::row_whole(heads, slots, count, size, i);
        without |= heads[i * rows::HEAD_WORDS] == Origin::NO_PID;
    }
    Looked { whole, without }
}

// The second alone. It gathers and does not stop early: a store that has such a row is the exception.
pub fn any_without_pid(heads: &[u64], used: usize) -> bool
    requires { used * 12 ≤ length heads.now }
    ensures { result ≡ without_pid heads.now used }
{
    let mut found = false;
    for i in 0..used {
        found |= heads[i * rows::HEAD_WORDS] == Origin::NO_PID;
    }
    found
}
