// The words of `check_log` and `write_log`: CAPACITY REPEATS RULE LIMIT SIZE COUNT with|without|before.
#![tactic(auto)]

use log_state::{Pids, Settings};
use program_input::{arg, number_at};
use std::env::Env;

// How sets are taken: what a word says of their PIDs.
fn pids_at(rt: &impl Env, i: usize) -> Option<Pids> {
    let mut text = [0u8; 64];
    let n = arg(rt, i, &mut text);
    match &text[..n] {
        b"with" => Some(Pids::With),
        b"without" => Some(Pids::Without),
        b"before" => Some(Pids::Before),
        _ => None,
    }
}

// The first seven arguments; `None` where they are no such words.
pub fn settings(rt: &impl Env) -> Option<Settings> {
    let capacity = number_at(rt, 1)?;
    let repeats = number_at(rt, 2)?;
    let rule = number_at(rt, 3)?;
    let limit = number_at(rt, 4)?;
    let size = number_at(rt, 5)?;
    let count = number_at(rt, 6)?;
    let pids = pids_at(rt, 7)?;
    if 1 < repeats {
        return None;
    }
    Some(Settings {
        capacity,
        repeats: repeats == 1,
        rule,
        limit: limit as usize,
        size: size as usize,
        count: count as usize,
        pids,
    })
}
