// Many sections in one call of the EIT collector (docs/RULES.md, "Collectors", and "Logs" for a section list): the list is judged and the store is looked at once, then
// one section after another is pushed, until one answers something else than 4. Answer and memory are those of pushing them one by one.
#![tactic(auto)]

ghost use Rattle.std.specs.Prelude.{◌≡◌};
ghost use Rattle.eit_state.specs.State.{store};
ghost use Rattle.log_list.specs.List.{givens_from, WholeFrom};
ghost use Rattle.eit_each.specs.Each.{after_all};
ghost use Rattle.eit_all.specs.All.{pushed_all, pushed_sections};

use answers::Refusal;
use eit_each::{AllAnswer, AllPushed};
use eit_state::{Eit, PushAnswer};
use log_list::ListError;

// Nothing is pushed.
fn refuse(answer: AllAnswer, eit: Eit) -> AllPushed
    ensures { result ≡ record { answer = answer; eit = eit; taken = 0 } }
{
    AllPushed {
        answer,
        eit,
        taken: 0,
    }
}

// A list that is whole, over any store: 10, 11, 41 where a set or a schedule has no PID, else its sections, those first that are repeats.
fn push_listed(
    eit: Eit,
    heads: &mut [u64],
    slots: &mut [u32],
    cells: &mut [u8],
    schedule_heads: &mut [u64],
    units: &mut [u32],
    list: &[u8],
) -> AllPushed
    requires { WholeFrom list.now 0 }
    ensures { after_all result heads.new slots.new cells.new schedule_heads.new units.new ≡ pushed_sections (store eit heads.old slots.old cells.old schedule_heads.old units.old) (givens_from list.now 0) }
{
    let seen = eit_state::look(eit, heads, slots, cells, schedule_heads, units);
    if seen.whole {
        if eit_state::counters_full(eit) {
            return refuse(
                AllAnswer::Pushed(PushAnswer::Refused(Refusal::CounterFull)),
                eit,
            );
        }
        if seen.without | without_pid::any_without_pid(schedule_heads, eit.schedules) {
            return refuse(AllAnswer::Pushed(PushAnswer::Refused(Refusal::NoPid)), eit);
        }
        let first = eit_repeats::push_first(eit, heads, slots, cells, list);
        return eit_each::push_each(
            first.eit,
            heads,
            slots,
            cells,
            schedule_heads,
            units,
            list,
            first.at,
        );
    }
    refuse(
        AllAnswer::Pushed(PushAnswer::Refused(Refusal::NotWhole)),
        eit,
    )
}

// Offers the sections of a list, each with its input and its PID: 42 and 10 of the list, judged from its start, 10, 11 and 41 of the store, then what the section
// answered that did not answer 4. Refused as a whole, it pushes nothing.
pub fn push_all(
    eit: Eit,
    heads: &mut [u64],
    slots: &mut [u32],
    cells: &mut [u8],
    schedule_heads: &mut [u64],
    units: &mut [u32],
    list: &[u8],
) -> AllPushed
    ensures { after_all result heads.new slots.new cells.new schedule_heads.new units.new ≡ pushed_all (store eit heads.old slots.old cells.old schedule_heads.old units.old) list.now }
{
    match log_list::judge(list) {
        Ok(()) => push_listed(eit, heads, slots, cells, schedule_heads, units, list),
        Err(ListError::Cut) => refuse(
            AllAnswer::Pushed(PushAnswer::Refused(Refusal::NotWhole)),
            eit,
        ),
        Err(ListError::TooLong) => refuse(AllAnswer::TooLong, eit),
    }
}
