// What the words of a host stand for in the calls on logs (docs/RULES.md, "Logs"): seven words of settings, and the word that a call tells a place or a length in.
#![tactic(auto)]

ghost use Rattle.std.specs.Prelude.{◌≡◌};
ghost use Rattle.host_words.specs.Answers.{words};
ghost use Rattle.host_log_words.specs.Words.{settings_of, rule_for, pids_for, tells_checked, tells_written};

use log_check::CheckError;
use log_state::{Pids, Settings};
use log_write::WriteError;

// The change rule, and none where it is not said how sets are taken: opening refuses that.
fn rule_for(rule: u64, pids: u64) -> u64
    ensures { result ≡ rule_for rule pids }
{
    if pids < 3 { rule } else { 0 }
}

// How sets are taken: 1 without PIDs, 2 by the older definition, else with them.
fn pids_for(pids: u64) -> Pids
    ensures { result ≡ pids_for pids }
{
    if pids == 1 {
        return Pids::Without;
    }
    if pids == 2 {
        return Pids::Before;
    }
    Pids::With
}

// The settings that seven words are: capacity, repeats, change rule, limit, cell size, cell count, and how sets are taken.
pub fn settings_of(w: &[u64; 7]) -> Settings
    ensures { result ≡ settings_of w.now }
{
    Settings {
        capacity: w[0],
        repeats: w[1] != 0,
        rule: rule_for(w[2], w[6]),
        limit: w[3] as usize,
        size: w[4] as usize,
        count: w[5] as usize,
        pids: pids_for(w[6]),
    }
}

// Writes the place of a wrong record (38, 39, 40); gives the answer's number.
pub fn write_place(place: &mut [u64; 1], told: Result<(), CheckError>) -> u8
    ensures { words result place.new ≡ tells_checked told place.old }
{
    match told {
        Ok(()) => 8,
        Err(error) => {
            if let Some(p) = error.place() {
                *place = [p as u64];
            }
            error.number()
        }
    }
}

// Writes how many bytes the log has (7); gives the answer's number.
pub fn write_length(length: &mut [u64; 1], told: Result<usize, WriteError>) -> u8
    ensures { words result length.new ≡ tells_written told length.old }
{
    match told {
        Ok(n) => {
            *length = [n as u64];
            7
        }
        Err(error) => error.number(),
    }
}
