// What becomes of a set once its row is the newest: it stays, goes out, is refused, or enters its schedule (docs/RULES.md, "Collectors").
#![tactic(auto)]

ghost use Rattle.std.specs.Prelude.{◌≡◌, ◌+◌, ◌*◌, ◌≤◌, length};
ghost use Rattle.eit_becomes.specs.Becoming.{own_table, becomes_of, is_marked};

use arrivals::Arrival;

// What becomes of a set whose row was touched: it stays as it is, it goes out, its table_id is out of range, or it enters its schedule.
#[derive(Clone, Copy)]
pub enum Becomes {
    Stays,
    GoesOut,
    OutOfRange,
    Enters,
}

// The table_id of an arrival.
pub fn own_table(a: Arrival) -> u64
    ensures { result ≡ own_table a }
{
    let entry = a.entry;
    let key = entry.key;
    key.table_id
}

// Of the set in row i.
pub fn becomes_of(heads: &[u64], slots: &[u32], a: Arrival, i: usize) -> Becomes
    requires { (i * 12 + 12 ≤ length heads.now) × (i * 288 + 288 ≤ length slots.now) }
    ensures { result ≡ becomes_of heads.now slots.now a i }
{
    if rows::mark(heads, i) != 0 {
        return Becomes::Stays;
    }
    if segments::set_complete(heads, slots, i) {
        if a.kind < 2 {
            return Becomes::GoesOut;
        }
        if a.tables < own_table(a) {
            return Becomes::OutOfRange;
        }
        return Becomes::Enters;
    }
    Becomes::Stays
}

// A set that goes out or enters its schedule is marked.
pub fn is_marked(b: Becomes) -> bool
    ensures { result ≡ is_marked b }
{
    match b {
        Becomes::Stays => false,
        Becomes::GoesOut => true,
        Becomes::OutOfRange => false,
        Becomes::Enters => true,
    }
}
