// A section that the gate takes (docs/RULES.md, "Logs"): it is given to a collector that is whole, and its records are made. Parts of a run.
#![tactic(auto)]

ghost use Rattle.std.specs.Prelude.{◌≡◌, ◌≤◌, length};
ghost use Rattle.store.specs.Store.{store};
ghost use Rattle.sets_plan.specs.Plan.{Ready};
ghost use Rattle.sets_settle.specs.Settle.{after_push};
ghost use Rattle.log_steps.specs.Steps.{from_for, seen_kind, gathered_of, set_entry_for, set_noted, seen_noted, PushedOk};

use log_entries::Entry;
use rows::Origin;
use section::header::Parts;
use sets_settle::{PushAnswer, Pushed};
use store::Sets;

// Where a section came from, in the words of a key: with its PID, or by the older definition with 8192, a number that no PID has.
pub fn origin_for(pids: bool, input: u8, pid: u16) -> Origin
    ensures { result ≡ from_for pids input pid }
{
    if pids {
        Origin {
            input: input as u64,
            pid: pid as u64,
        }
    } else {
        Origin {
            input: input as u64,
            pid: Origin::NO_PID,
        }
    }
}

// Emitted or suppressed.
pub fn seen_kind(changed: bool, repeats: bool) -> u8
    ensures { result ≡ seen_kind changed repeats }
{
    if changed | repeats {
        log_records::EMITTED
    } else {
        log_records::SUPPRESSED
    }
}

// A section into a collector that is whole, which is not looked at again: past 41 and 12, which the public call refuses with.
pub fn gather(
    sets: Sets,
    heads: &mut [u64],
    slots: &mut [u32],
    cells: &mut [u8],
    from: Origin,
    section: &[u8],
) -> Pushed
    requires { Ready (store sets heads.old slots.old cells.old) }
    ensures cells_after { after_push result heads.new slots.new cells.new ≡ gathered_of (store sets heads.old slots.old cells.old) from section.now }
    ensures pushed_ok { PushedOk section.now result.answer }
{
    match arrivals::set_read(from, section) {
        Err(refusal) => Pushed {
            answer: PushAnswer::Refused(refusal),
            sets,
        },
        Ok(entry) => { sets_push::push_whole(sets, heads, slots, cells, entry, section) }
    }
}

// The record of a set: with its PID, or by the older definition without.
fn set_entry(pids: bool, input: u8, pid: u16, section: &[u8]) -> Entry
    ensures { result ≡ set_entry_for pids input pid section.now }
{
    if pids {
        log_makers::set_record(input, Some(pid), section)
    } else {
        log_makers::bare_set_record(input, section)
    }
}

// The record of a set that went out.
fn set_noted(pids: bool, input: u8, pid: u16, section: &[u8], answer: PushAnswer) -> Entry
    ensures value { result ≡ set_noted pids input pid section.now answer }
    ensures length_bound { result.length ≤ 10 }
{
    match answer {
        PushAnswer::Nothing => log_entries::none(),
        PushAnswer::Set(_) => set_entry(pids, input, pid, section),
        PushAnswer::Refused(_) => log_entries::none(),
    }
}

// The gate's record, and behind it that of a set that went out.
pub fn note(
    kind: u8,
    input: u8,
    pid: u16,
    parts: Parts,
    pids: bool,
    section: &[u8],
    answer: PushAnswer,
) -> Entry
    ensures { result ≡ seen_noted kind input pid parts pids section.now answer }
{
    log_entries::seen_with(
        kind,
        input,
        pid,
        parts,
        set_noted(pids, input, pid, section, answer),
    )
}
