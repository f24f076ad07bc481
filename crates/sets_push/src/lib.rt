// What pushing is made of: whether the section gets in, and its way into a store that is whole.
#![tactic(auto)]

ghost use Rattle.std.specs.Prelude.{◌≡◌};
ghost use Rattle.store.specs.Store.{store};
ghost use Rattle.arrivals.specs.Arrivals.{Taken};
ghost use Rattle.sets_plan.specs.Plan.{Ready};
ghost use Rattle.sets_settle.specs.Settle.{after_push};
ghost use Rattle.sets_push.specs.Pushing.{admitted, whole_pushed, AdmittedOk};

use answers::Refusal;
use rows::Entry;
use sets_settle::Pushed;
use store::Sets;

// 10, 11, 41 where a row has no PID, then what the section's PID and bytes say.
pub fn admit(
    sets: Sets,
    heads: &[u64],
    slots: &[u32],
    cells: &[u8],
    input: u8,
    pid: Option<u16>,
    bytes: &[u8],
) -> Result<Entry, Refusal>
    ensures value { result ≡ admitted (store sets heads.now slots.now cells.now) input pid bytes.now }
    ensures admitted_ok { AdmittedOk (store sets heads.now slots.now cells.now) bytes.now result }
{
    let seen = store::look(sets, heads, slots, cells);
    if seen.whole {
        if store::counters_full(sets) {
            return Err(Refusal::CounterFull);
        }
        if seen.without {
            return Err(Refusal::NoPid);
        }
        return arrivals::set_arrival(input, pid, bytes);
    }
    Err(Refusal::NotWhole)
}

// A section that arrived is pushed into a store that is whole.
pub fn push_whole(
    sets: Sets,
    heads: &mut [u64],
    slots: &mut [u32],
    cells: &mut [u8],
    e: Entry,
    bytes: &[u8],
) -> Pushed
    requires { Ready (store sets heads.old slots.old cells.old) × Taken bytes.now e }
    ensures { after_push result heads.new slots.new cells.new ≡ whole_pushed (store sets heads.old slots.old cells.old) e bytes.now }
{
    let plan = sets_plan::decide(sets, heads, slots, cells, e, bytes);
    sets_settle::carry(sets, heads, slots, cells, bytes, plan)
}
