// The words of `counts`: CAPACITY LIMIT CELLS [INTERVAL]. A program has a stack and no heap: what it can lend bounds the words.
#![tactic(auto)]

ghost use Rattle.std.specs.Prelude.{◌≡◌};
ghost use Rattle.counts_words.specs.Words.{words_of};

use program_input::{has_arg, number_at};
use std::env::Env;

// The rows of the gate, the keys of each collector and its cells that are lent.
pub const MOST_ROWS: u64 = 16384;

pub const MOST_KEYS: u64 = 128;

pub const MOST_CELLS: u64 = 256;

#[derive(Clone, Copy)]
pub struct Words {
    pub capacity: u64,
    pub limit: u64,
    pub cells: u64,
    pub interval: u64,
}

// Four numbers in their bounds.
pub fn gathered(
    capacity: Option<u64>,
    limit: Option<u64>,
    cells: Option<u64>,
    interval: Option<u64>,
) -> Option<Words>
    ensures { result ≡ words_of capacity limit cells interval }
{
    let words = Words {
        capacity: capacity?,
        limit: limit?,
        cells: cells?,
        interval: interval?,
    };
    let lent = (words.capacity <= MOST_ROWS)
        & (words.limit <= MOST_KEYS)
        & (words.cells <= MOST_CELLS)
        & (1 <= words.interval);
    if lent { Some(words) } else { None }
}

// Three or four words; the interval is 1 where there is no fourth.
pub fn read(rt: &impl Env) -> Option<Words> {
    if !has_arg(rt, 3) | has_arg(rt, 5) {
        return None;
    }
    let interval = if has_arg(rt, 4) {
        number_at(rt, 4)
    } else {
        Some(1)
    };
    gathered(
        number_at(rt, 1),
        number_at(rt, 2),
        number_at(rt, 3),
        interval,
    )
}
