// A section is pushed to a store of the EIT collector that is known to be whole and to have PIDs alone (docs/RULES.md, "Collectors"): what `eit::push` does behind its
// look at the store. So a call that pushes many sections looks at the store once.
#![tactic(auto)]

ghost use Rattle.std.specs.Prelude.{◌≡◌};
ghost use Rattle.eit_state.specs.State.{store};
ghost use Rattle.eit.specs.Store.{pushed, pushed_of};
ghost use Rattle.eit_ready.specs.Ready.{Pushable};

use answers::Refusal;
use eit_state::{Eit, PushAnswer, Pushed};

// As `eit::push`: 11, then what the section's PID and its bytes say. The store stays so.
pub fn push_ready(
    eit: Eit,
    heads: &mut [u64],
    slots: &mut [u32],
    cells: &mut [u8],
    schedule_heads: &mut [u64],
    units: &mut [u32],
    input: u8,
    pid: Option<u16>,
    bytes: &[u8],
) -> Pushed
    requires { Pushable (store eit heads.old slots.old cells.old schedule_heads.old units.old) }
    ensures units_after { pushed result heads.new slots.new cells.new schedule_heads.new units.new ≡ pushed_of (store eit heads.old slots.old cells.old schedule_heads.old units.old) input pid bytes.now }
    ensures pushable { Pushable (store result.eit heads.new slots.new cells.new schedule_heads.new units.new) }
{
    if eit_state::counters_full(eit) {
        return Pushed {
            answer: PushAnswer::Refused(Refusal::CounterFull),
            eit,
        };
    }
    match arrivals::eit_arrival(input, pid, bytes) {
        Err(refusal) => Pushed {
            answer: PushAnswer::Refused(refusal),
            eit,
        },
        Ok(a) => {
            eit_carry::push_whole(eit, heads, slots, cells, schedule_heads, units, bytes, a)
        }
    }
}
