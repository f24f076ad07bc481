// A drop by filter: what is wanted of each field, and the sets and schedules that match leave (docs/RULES.md, "Collectors").
#![tactic(auto)]

ghost use Rattle.std.specs.Prelude.{◌≡◌};
ghost use Rattle.eit_state.specs.State.{rows, RowsFit};
ghost use Rattle.eit_drop.specs.Drop.{input_wanted, made_wanted, wanted_origin, fields_of, drop_wanted, matching_gone};

use answers::Refusal;
use eit_state::Eit;
use filter::{Fields, Of, WantedOrigin};
use section::ids::{Input, Pid};

// The PID that a filter wants: free, exactly none, which is refused, or exactly a number.
#[derive(Clone, Copy)]
pub enum WantedPid {
    Any,
    Without,
    Exactly(u16),
}

// Which sets and schedules a drop takes: each field is free (none) or exact. Kinds are 0 and 1 for present/following actual and other, 2 and 3 for
// schedule actual and other; current_next is 0 or 1.
#[derive(Clone, Copy)]
pub struct Filter {
    pub pid: WantedPid,
    pub kind: Option<u64>,
    pub service_id: Option<u64>,
    pub transport_stream_id: Option<u64>,
    pub original_network_id: Option<u64>,
    pub current_next: Option<u64>,
    pub input: Option<u64>,
}

// What a filter wants of the input: an input of 16 or more is refused (37).
fn input_wanted(input: Option<u64>, pid: Option<u64>) -> Result<WantedOrigin, Refusal>
    ensures { result ≡ input_wanted input pid }
{
    match input {
        Some(v) if Input::COUNT as u64 <= v => Err(Refusal::BadInput),
        _ => Ok(WantedOrigin { input, pid }),
    }
}

// What a filter wants of where sections came from: exactly none is refused (41), then a PID of 8192 or more (12), then an input of 16 or more (37).
fn wanted_origin(input: Option<u64>, pid: WantedPid) -> Result<WantedOrigin, Refusal>
    ensures { result ≡ wanted_origin input pid }
{
    match pid {
        WantedPid::Any => input_wanted(input, None),
        WantedPid::Without => Err(Refusal::NoPid),
        WantedPid::Exactly(v) => {
            let pid = Pid::make(v)?;
            input_wanted(input, Some(pid.0 as u64))
        }
    }
}

// The filter in the words of a head.
fn fields_of(from: WantedOrigin, filter: Filter) -> Fields
    ensures { result ≡ fields_of from filter }
{
    let kind = filter.kind;
    let service_id = filter.service_id;
    let transport_stream_id = filter.transport_stream_id;
    let original_network_id = filter.original_network_id;
    let current_next = filter.current_next;
    Fields {
        from,
        kind,
        service_id,
        transport_stream_id,
        original_network_id,
        current_next,
    }
}

// What a drop takes: 41, then 12, then 37, then what is to leave.
pub fn read_filter(filter: Filter) -> Result<Fields, Refusal>
    ensures { result ≡ drop_wanted filter }
{
    let input = filter.input;
    let pid = filter.pid;
    let from = wanted_origin(input, pid)?;
    Ok(fields_of(from, filter))
}

// Every set and every schedule that matches leaves; no eviction is counted.
pub fn drop_matching(
    eit: Eit,
    heads: &mut [u64],
    slots: &mut [u32],
    schedule_heads: &mut [u64],
    units: &mut [u32],
    f: Fields,
) -> Eit
    requires { RowsFit (rows eit heads.old slots.old schedule_heads.old units.old) }
    ensures { rows result heads.new slots.new schedule_heads.new units.new ≡ matching_gone (rows eit heads.old slots.old schedule_heads.old units.old) f }
{
    let sets = eit.sets;
    let used = filter::drop_rows(Of::Sets, f, heads, slots, sets.used);
    let schedules = filter::drop_rows(Of::Schedules, f, schedule_heads, units, eit.schedules);
    let then = eit_state::with_sets(eit, used, sets.evictions);
    eit_state::with_schedules(then, schedules, eit.schedule_evictions)
}
