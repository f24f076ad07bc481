// The collectors of `counts`: a section that the gate answered 1 or 2 goes to one of them, and what it answers is counted.
#![tactic(auto)]

ghost use Rattle.std.specs.Prelude.{◌≡◌};
ghost use Rattle.store.specs.Store as sets_memory;
ghost use Rattle.eit_state.specs.State as eit_memory;
ghost use Rattle.counts_collect.specs.Collected.{set_side, eit_side, held, set_counted, eit_counted, is_eit, collected};

use eit_state::Eit;
use store::Sets;

// Settings and counts of both, by value.
#[derive(Clone, Copy)]
pub struct Collectors {
    pub sets: Sets,
    pub eit: Eit,
}

// Whether a section has the table_id of an EIT.
fn is_eit(section: &[u8]) -> bool
    ensures { result ≡ is_eit section.now }
{
    if section.len() == 0 {
        return false;
    }
    (0x4E <= section[0]) & (section[0] <= 0x6F)
}

// Into the set collector.
fn push_set(
    sets: Sets,
    heads: &mut [u64],
    slots: &mut [u32],
    cells: &mut [u8],
    tally: &mut [u64; 10],
    pid: u16,
    section: &[u8],
) -> Sets
    ensures { set_side (sets_memory.store result heads.new slots.new cells.new) tally.new ≡ set_counted (set_side (sets_memory.store sets heads.old slots.old cells.old) tally.old) pid section.now }
{
    let pushed = sets::push(sets, heads, slots, cells, 0, Some(pid), section);
    let answer = pushed.answer;
    tallies::count(tally, tallies::sets::column(answer));
    pushed.sets
}

// Into the EIT collector.
fn push_eit(
    eit: Eit,
    heads: &mut [u64],
    slots: &mut [u32],
    cells: &mut [u8],
    schedule_heads: &mut [u64],
    units: &mut [u32],
    tally: &mut [u64; 10],
    pid: u16,
    section: &[u8],
) -> Eit
    ensures { eit_side (eit_memory.store result heads.new slots.new cells.new schedule_heads.new units.new) tally.new ≡ eit_counted (eit_side (eit_memory.store eit heads.old slots.old cells.old schedule_heads.old units.old) tally.old) pid section.now }
{
    let pushed = eit::push(
        eit,
        heads,
        slots,
        cells,
        schedule_heads,
        units,
        0,
        Some(pid),
        section,
    );
    let answer = pushed.answer;
    tallies::count(tally, tallies::eit::column(answer));
    pushed.eit
}

// Into the one that takes it.
pub fn collect(
    c: Collectors,
    heads: &mut [u64],
    slots: &mut [u32],
    cells: &mut [u8],
    eit_heads: &mut [u64],
    eit_slots: &mut [u32],
    eit_cells: &mut [u8],
    schedule_heads: &mut [u64],
    units: &mut [u32],
    tally: &mut [u64; 10],
    pid: u16,
    section: &[u8],
) -> Collectors
    ensures { held (sets_memory.store result.sets heads.new slots.new cells.new) (eit_memory.store result.eit eit_heads.new eit_slots.new eit_cells.new schedule_heads.new units.new) tally.new ≡ collected (held (sets_memory.store c.sets heads.old slots.old cells.old) (eit_memory.store c.eit eit_heads.old eit_slots.old eit_cells.old schedule_heads.old units.old) tally.old) pid section.now }
{
    if is_eit(section) {
        let sets = c.sets;
        let eit = push_eit(
            c.eit,
            eit_heads,
            eit_slots,
            eit_cells,
            schedule_heads,
            units,
            tally,
            pid,
            section,
        );
        return Collectors { sets, eit };
    }
    let eit = c.eit;
    let sets = push_set(c.sets, heads, slots, cells, tally, pid, section);
    Collectors { sets, eit }
}
