// Many sections in one call (docs/RULES.md, "Collectors", and "Logs" for a section list): the list is judged and the store is looked at once, then one section
// after another is pushed, until one answers something else than 4. Answer and memory are those of pushing them one by one.
#![tactic(auto)]

ghost use Rattle.std.specs.Prelude.{◌≡◌, ◌+◌, ◌≤◌, length, take, drop};
ghost use Rattle.store.specs.Store.{store};
ghost use Rattle.sets_settle.specs.Settle.{after_push};
ghost use Rattle.sets.specs.Store.{pushed_of};
ghost use Rattle.log_list.specs.List.{given_at, givens_from, WholeFrom};
ghost use Rattle.sets_all.specs.All.{all_no, after_all, pushed_each, pushed_all, pushed_given, pushed_sections, Pushable};

use answers::Refusal;
use log_list::{ListError, Place, Sections};
use sets_settle::{PushAnswer, Pushed};
use store::Sets;

// What the section answered that was pushed last: 4 where all of them did, and where there is none. Or a section of more than 4,098 bytes (42).
#[derive(Clone, Copy)]
pub enum AllAnswer {
    Pushed(PushAnswer),
    TooLong,
}

impl AllAnswer {
    pub fn number(self) -> u8
        ensures { result ≡ all_no self }
    {
        match self {
            AllAnswer::Pushed(answer) => answer.number(),
            AllAnswer::TooLong => 42,
        }
    }
}

// `taken` bytes of the list were taken: all through the section that answered.
#[derive(Clone, Copy)]
pub struct AllPushed {
    pub answer: AllAnswer,
    pub sets: Sets,
    pub taken: usize,
}

// As `push`, of a store that is known to be whole, with a PID in every row in use: 11, then what the section's PID and its bytes say. It stays so.
fn push_ready(
    sets: Sets,
    heads: &mut [u64],
    slots: &mut [u32],
    cells: &mut [u8],
    input: u8,
    pid: Option<u16>,
    bytes: &[u8],
) -> Pushed
    requires { Pushable sets heads.old slots.old cells.old }
    ensures cells_after { after_push result heads.new slots.new cells.new ≡ pushed_of (store sets heads.old slots.old cells.old) input pid bytes.now }
    ensures pushable { Pushable result.sets heads.new slots.new cells.new }
{
    if store::counters_full(sets) {
        return Pushed {
            answer: PushAnswer::Refused(Refusal::CounterFull),
            sets,
        };
    }
    match arrivals::set_arrival(input, pid, bytes) {
        Err(refusal) => Pushed {
            answer: PushAnswer::Refused(refusal),
            sets,
        },
        Ok(entry) => { sets_push::push_whole(sets, heads, slots, cells, entry, bytes) }
    }
}

// The section of a list that a place tells of.
fn push_at(
    sets: Sets,
    heads: &mut [u64],
    slots: &mut [u32],
    cells: &mut [u8],
    list: &[u8],
    place: Place,
) -> Pushed
    requires pushable { Pushable sets heads.old slots.old cells.old }
    requires length_in_bounds { place.start + place.length ≤ length list.now }
    ensures cells_after { after_push result heads.new slots.new cells.new ≡ pushed_given (store sets heads.old slots.old cells.old) (given_at list.now place) }
    ensures pushable_2 { Pushable result.sets heads.new slots.new cells.new }
{
    let start = place.start;
    let end = start + place.length;
    push_ready(
        sets,
        heads,
        slots,
        cells,
        place.input,
        Some(place.pid),
        &list[start..end],
    )
}

// One section after another, until one answers something else than 4: at first those that only touch their row.
fn push_each(
    sets: Sets,
    heads: &mut [u64],
    slots: &mut [u32],
    cells: &mut [u8],
    list: &[u8],
) -> AllPushed
    requires pushable { Pushable sets heads.old slots.old cells.old }
    requires whole_from { WholeFrom list.now 0 }
    ensures { after_all result heads.new slots.new cells.new ≡ pushed_each 0 (store sets heads.old slots.old cells.old) (givens_from list.now 0) }
{
    let first = sets_repeats::push_first(sets, heads, slots, cells, list);
    let mut held = first.sets;
    let mut at = first.at;
    for place in Sections::new(list, at) {
        let pushed = push_at(held, heads, slots, cells, list, place);
        held = pushed.sets;
        at = place.start + place.length;
        let answer = pushed.answer;
        if answer.number() != 4 {
            return AllPushed {
                answer: AllAnswer::Pushed(answer),
                sets: held,
                taken: at,
            };
        }
    }
    AllPushed {
        answer: AllAnswer::Pushed(PushAnswer::Nothing),
        sets: held,
        taken: at,
    }
}

// Nothing is pushed.
fn refuse(answer: AllAnswer, sets: Sets) -> AllPushed
    ensures { result ≡ record { answer = answer; sets = sets; taken = 0 } }
{
    AllPushed {
        answer,
        sets,
        taken: 0,
    }
}

// A list that is whole, over any store: 10, 11, 41 where a row has no PID, else its sections.
fn push_listed(
    sets: Sets,
    heads: &mut [u64],
    slots: &mut [u32],
    cells: &mut [u8],
    list: &[u8],
) -> AllPushed
    requires { WholeFrom list.now 0 }
    ensures { after_all result heads.new slots.new cells.new ≡ pushed_sections (store sets heads.old slots.old cells.old) (givens_from list.now 0) }
{
    let seen = store::look(sets, heads, slots, cells);
    if seen.whole {
        if store::counters_full(sets) {
            return refuse(
                AllAnswer::Pushed(PushAnswer::Refused(Refusal::CounterFull)),
                sets,
            );
        }
        if seen.without {
            return refuse(AllAnswer::Pushed(PushAnswer::Refused(Refusal::NoPid)), sets);
        }
        return push_each(sets, heads, slots, cells, list);
    }
    refuse(
        AllAnswer::Pushed(PushAnswer::Refused(Refusal::NotWhole)),
        sets,
    )
}

// Offers the sections of a list, each with its input and its PID: 42 and 10 of the list, judged from its start, 10, 11 and 41 of the store, then what the section
// answered that did not answer 4. Refused as a whole, it pushes nothing.
pub fn push_all(
    sets: Sets,
    heads: &mut [u64],
    slots: &mut [u32],
    cells: &mut [u8],
    list: &[u8],
) -> AllPushed
    ensures { after_all result heads.new slots.new cells.new ≡ pushed_all (store sets heads.old slots.old cells.old) list.now }
{
    match log_list::judge(list) {
        Ok(()) => push_listed(sets, heads, slots, cells, list),
        Err(ListError::Cut) => refuse(
            AllAnswer::Pushed(PushAnswer::Refused(Refusal::NotWhole)),
            sets,
        ),
        Err(ListError::TooLong) => refuse(AllAnswer::TooLong, sets),
    }
}
