// The sections that a packet finished, one after another through the collectors of `counts`.
#![tactic(auto)]

ghost use Rattle.std.specs.Prelude.{◌≡◌, ◌+◌, ◌*◌, ◌≤◌, ◌<◌, length};
ghost use Rattle.store.specs.Store as sets_memory;
ghost use Rattle.eit_state.specs.State as eit_memory;
ghost use Rattle.counts_collect.specs.Collected.{held};
ghost use Rattle.counts_places.specs.Collected.{is_sound, collected_at, collected_from};

use counts_collect::Collectors;

// Emitted or suppressed.
fn is_sound(answer: u64) -> bool
    ensures { result ≡ is_sound answer }
{
    (answer == 1) | (answer == 2)
}

// The section of place k, where the gate answered 1 or 2.
fn collect_at<'a>(
    c: Collectors,
    heads: &mut [u64],
    slots: &mut [u32],
    cells: &mut [u8],
    eit_heads: &mut [u64],
    eit_slots: &mut [u32],
    eit_cells: &mut [u8],
    schedule_heads: &mut [u64],
    units: &mut [u32],
    tally: &mut [u64; 10],
    places: &[u64],
    k: usize,
    pid: u16,
    packet: &'a [u8],
    buffers: &'a [u8],
) -> Collectors
    requires { k * 6 + 5 < length places.now }
    ensures { held (sets_memory.store result.sets heads.new slots.new cells.new) (eit_memory.store result.eit eit_heads.new eit_slots.new eit_cells.new schedule_heads.new units.new) tally.new ≡ collected_at places.now packet.now buffers.now pid k (held (sets_memory.store c.sets heads.old slots.old cells.old) (eit_memory.store c.eit eit_heads.old eit_slots.old eit_cells.old schedule_heads.old units.old) tally.old) }
{
    if is_sound(places[k * 6]) {
        let place = demux_places::place_at(places, k);
        return counts_collect::collect(
            c,
            heads,
            slots,
            cells,
            eit_heads,
            eit_slots,
            eit_cells,
            schedule_heads,
            units,
            tally,
            pid,
            demux_places::section_at(packet, buffers, place),
        );
    }
    c
}

// The sections of the first `count` places, one after another.
pub fn collect_all<'a>(
    c: Collectors,
    heads: &mut [u64],
    slots: &mut [u32],
    cells: &mut [u8],
    eit_heads: &mut [u64],
    eit_slots: &mut [u32],
    eit_cells: &mut [u8],
    schedule_heads: &mut [u64],
    units: &mut [u32],
    tally: &mut [u64; 10],
    places: &[u64],
    count: usize,
    pid: u16,
    packet: &'a [u8],
    buffers: &'a [u8],
) -> Collectors
    requires { count * 6 ≤ length places.now }
    ensures { held (sets_memory.store result.sets heads.new slots.new cells.new) (eit_memory.store result.eit eit_heads.new eit_slots.new eit_cells.new schedule_heads.new units.new) tally.new ≡ collected_from places.now packet.now buffers.now pid count 0 (held (sets_memory.store c.sets heads.old slots.old cells.old) (eit_memory.store c.eit eit_heads.old eit_slots.old eit_cells.old schedule_heads.old units.old) tally.old) }
{
    let mut held = c;
    for k in 0..count {
        held = collect_at(
            held,
            heads,
            slots,
            cells,
            eit_heads,
            eit_slots,
            eit_cells,
            schedule_heads,
            units,
            tally,
            places,
            k,
            pid,
            packet,
            buffers,
        );
    }
    held
}
