// The sections of a list pushed to the EIT collector one after another, over a store that is known to be whole and to have PIDs alone (docs/RULES.md, "Collectors", and
// "Logs" for a section list).
#![tactic(auto)]

ghost use Rattle.std.specs.Prelude.{◌≡◌, ◌+◌, ◌≤◌, length};
ghost use Rattle.eit_state.specs.State.{store};
ghost use Rattle.eit.specs.Store.{pushed};
ghost use Rattle.eit_ready.specs.Ready.{Pushable};
ghost use Rattle.log_list.specs.List.{given_at, givens_from, WholeFrom};
ghost use Rattle.eit_each.specs.Each.{all_no, after_all, pushed_given, pushed_each};

use eit_state::{Eit, PushAnswer, Pushed};
use log_list::{Place, Sections};

// What the section answered that was pushed last: 4 where all of them did, and where there is none. Or a section of more than 4,098 bytes (42).
#[derive(Clone, Copy)]
pub enum AllAnswer {
    Pushed(PushAnswer),
    TooLong,
}

impl AllAnswer {
    pub fn number(self) -> u8
        ensures { result ≡ all_no self }
    {
        match self {
            AllAnswer::Pushed(answer) => answer.number(),
            AllAnswer::TooLong => 42,
        }
    }
}

// `taken` bytes of the list were taken: all through the section that answered.
#[derive(Clone, Copy)]
pub struct AllPushed {
    pub answer: AllAnswer,
    pub eit: Eit,
    pub taken: usize,
}

// The section of a list that a place tells of.
fn push_at(
    eit: Eit,
    heads: &mut [u64],
    slots: &mut [u32],
    cells: &mut [u8],
    schedule_heads: &mut [u64],
    units: &mut [u32],
    list: &[u8],
    place: Place,
) -> Pushed
    requires pushable { Pushable (store eit heads.old slots.old cells.old schedule_heads.old units.old) }
    requires length_in_bounds { place.start + place.length ≤ length list.now }
    ensures units_after { pushed result heads.new slots.new cells.new schedule_heads.new units.new ≡ pushed_given (store eit heads.old slots.old cells.old schedule_heads.old units.old) (given_at list.now place) }
    ensures pushable_2 { Pushable (store result.eit heads.new slots.new cells.new schedule_heads.new units.new) }
{
    let start = place.start;
    let end = start + place.length;
    eit_ready::push_ready(
        eit,
        heads,
        slots,
        cells,
        schedule_heads,
        units,
        place.input,
        Some(place.pid),
        &list[start..end],
    )
}

// One section after another from place `from` of the list on, until one answers something else than 4.
pub fn push_each(
    eit: Eit,
    heads: &mut [u64],
    slots: &mut [u32],
    cells: &mut [u8],
    schedule_heads: &mut [u64],
    units: &mut [u32],
    list: &[u8],
    from: usize,
) -> AllPushed
    requires pushable { Pushable (store eit heads.old slots.old cells.old schedule_heads.old units.old) }
    requires whole_from { WholeFrom list.now from }
    ensures { after_all result heads.new slots.new cells.new schedule_heads.new units.new ≡ pushed_each from (store eit heads.old slots.old cells.old schedule_heads.old units.old) (givens_from list.now from) }
{
    let mut held = eit;
    let mut at = from;
    for place in Sections::new(list, from) {
        let pushed = push_at(
            held,
            heads,
            slots,
            cells,
            schedule_heads,
            units,
            list,
            place,
        );
        held = pushed.eit;
        at = place.start + place.length;
        let answer = pushed.answer;
        if answer.number() != 4 {
            return AllPushed {
                answer: AllAnswer::Pushed(answer),
                eit: held,
                taken: at,
            };
        }
    }
    AllPushed {
        answer: AllAnswer::Pushed(PushAnswer::Nothing),
        eit: held,
        taken: at,
    }
}
