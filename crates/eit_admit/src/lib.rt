// Whether a call goes on: the refusals that come before a section or a filter is looked up in the store (docs/RULES.md, "Answers"). Nothing lent
// is written.
#![tactic(auto)]

ghost use Rattle.std.specs.Prelude.{◌≡◌};
ghost use Rattle.eit_state.specs.State.{store};
ghost use Rattle.eit_admit.specs.Admitting.{admitted, Admitted, drop_of, DropOk};

use answers::Refusal;
use arrivals::Arrival;
use eit_drop::Filter;
use eit_state::Eit;
use filter::Fields;

// 10, then 11, then 41 where a set or a schedule has no PID, then what the section's PID (41, 12, 37) and its bytes (14 to 19) say.
pub fn admit(
    eit: Eit,
    heads: &[u64],
    slots: &[u32],
    cells: &[u8],
    schedule_heads: &[u64],
    units: &[u32],
    input: u8,
    pid: Option<u16>,
    bytes: &[u8],
) -> Result<Arrival, Refusal>
    ensures value { result ≡ admitted (store eit heads.now slots.now cells.now schedule_heads.now units.now) input pid bytes.now }
    ensures admitted { Admitted (store eit heads.now slots.now cells.now schedule_heads.now units.now) result }
{
    let seen = eit_state::look(eit, heads, slots, cells, schedule_heads, units);
    if seen.whole {
        if eit_state::counters_full(eit) {
            return Err(Refusal::CounterFull);
        }
        if seen.without | without_pid::any_without_pid(schedule_heads, eit.schedules) {
            return Err(Refusal::NoPid);
        }
        return arrivals::eit_arrival(input, pid, bytes);
    }
    Err(Refusal::NotWhole)
}

// 10, then 41 where a set or a schedule has no PID, then what the filter is refused with (41, 12, 37), or what is to leave.
pub fn admit_filter(
    eit: Eit,
    heads: &[u64],
    slots: &[u32],
    cells: &[u8],
    schedule_heads: &[u64],
    units: &[u32],
    filter: Filter,
) -> Result<Fields, Refusal>
    ensures value { result ≡ drop_of (store eit heads.now slots.now cells.now schedule_heads.now units.now) filter }
    ensures drop_ok { DropOk (store eit heads.now slots.now cells.now schedule_heads.now units.now) result }
{
    if eit_state::is_whole(eit, heads, slots, cells, schedule_heads, units) {
        if eit_pids::any_row_without_pid(eit, heads, schedule_heads) {
            return Err(Refusal::NoPid);
        }
        return eit_drop::read_filter(filter);
    }
    Err(Refusal::NotWhole)
}
