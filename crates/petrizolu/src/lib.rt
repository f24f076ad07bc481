// The library for hosts in C and Rust: every public call as a C function over memory that the host lends. An array comes as a pointer, a slice as a
// pointer and a count of its elements. Each function takes any content of what is lent, answers the number that docs/RULES.md, "Answers", has, and leaves what its promise says.
// `include/petrizolu.h` has the words of each array as structs.
#![tactic(auto)]

ghost use Rattle.std.specs.Prelude.{◌≡◌};
ghost use Rattle.crc.specs.Crc.{crc_of};
ghost use Rattle.host_gate.specs.Calls.{begun, gate_opened, left, gate_offered, watch_opened, watch_asked};
ghost use Rattle.host_indexed.specs.Calls as indexed;
ghost use Rattle.host_streams.specs.Calls as stream_calls;
ghost use Rattle.host_feed.specs.Calls as packets;
ghost use Rattle.host_feed_indexed_calls.specs.Calls as indexed_packets;
ghost use Rattle.host_pass.specs.Calls as passes;
ghost use Rattle.host_pass_indexed.specs.Calls as indexed_passes;
ghost use Rattle.host_words.specs.Answers.{words};
ghost use Rattle.pats.specs.Store.{record_of};
ghost use Rattle.host_sets.specs.Calls.{sets_left, sets_opened, sets_pushed, sets_cleared, sets_next};
ghost use Rattle.host_sets_all.specs.Calls.{all_left, sets_pushed_all};
ghost use Rattle.host_networks.specs.Calls.{section_read, set_read};
ghost use Rattle.host_showing.specs.Calls.{listing, section_listed, set_listed, table_listed, date_number};
ghost use Rattle.host_guides.specs.Calls.{comparison, sets_compared, comparisons, schedules_compared, held_by_one};
ghost use Rattle.host_logs.specs.Calls.{check_left, log_checked, write_left, log_written};
ghost use Rattle.host_log_records.specs.Calls.{log_read, made, offer_made, set_made};
ghost use Rattle.log_sections.specs.Steps.{memory};
ghost use Rattle.host_eit_all.specs.Calls.{all_left as eit_all_left, eit_pushed_all};
ghost use Rattle.host_eit.specs.Calls.{eit_opened, eit_left, eit_pushed, eit_cleared, eit_dropped_to, eit_dropped, eit_next, eit_next_in};

// The CRC of ISO/IEC 13818-1, Annex A.
#[unsafe(no_mangle)]
pub extern "C" fn petrizolu_crc(bytes: &[u8]) -> u32
    ensures { result ≡ crc_of bytes.now }
{
    crc::crc(bytes)
}

// Opens a gate and the watch record of one input: 7, 12 or 13. `settings` are bits: 1 repeats, 2 follow complete PATs, 4 well-known PIDs, 8 with 2 each changed
// PAT section. A refusal writes nothing.
#[unsafe(no_mangle)]
pub extern "C" fn petrizolu_gate_open(
    gate: &mut [u64; 13],
    capacity: u64,
    settings: u32,
    change_rule: u64,
    extra: &[u16],
    keys: &[u64],
    changes: &[u64],
    watch: &mut [u64],
    pat_slots: &[u32],
    pat_cells: &[u8],
) -> u8
    ensures { begun result gate.new watch.new ≡ gate_opened gate.old capacity settings change_rule extra.now keys.now changes.now pat_slots.now pat_cells.now watch.old }
{
    host_gate::open(
        gate,
        capacity,
        settings,
        change_rule,
        extra,
        keys,
        changes,
        watch,
        pat_slots,
        pat_cells,
    )
}

// Offers a section that came on an input and a PID, watched or not: 1, 2, 3, 10, 11, 12, 31 or 37. 31 and 3 tell what the section failed by, all others leave `failure`.
#[unsafe(no_mangle)]
pub extern "C" fn petrizolu_gate_offer(
    gate: &mut [u64; 13],
    keys: &mut [u64],
    changes: &mut [u64],
    watch: &mut [u64],
    pat_slots: &mut [u32],
    pat_cells: &mut [u8],
    input: u32,
    pid: u32,
    section: &[u8],
    failure: &mut [u64; 3],
) -> u8
    ensures { left result gate.new keys.new changes.new (record_of watch.new pat_slots.new pat_cells.new) failure.new ≡ gate_offered gate.old keys.old changes.old (record_of watch.old pat_slots.old pat_cells.old) input pid section.now failure.old }
{
    host_gate::offer(
        gate, keys, changes, watch, pat_slots, pat_cells, input, pid, section, failure,
    )
}

// Opens the watch record of a further input: 7, 12 or 13. Of `settings` how PATs are followed and the well-known PIDs are looked at. A refusal writes nothing.
#[unsafe(no_mangle)]
pub extern "C" fn petrizolu_watch_open(
    settings: u32,
    extra: &[u16],
    watch: &mut [u64],
    pat_slots: &[u32],
    pat_cells: &[u8],
) -> u8
    ensures { words result watch.new ≡ watch_opened settings extra.now pat_slots.now pat_cells.now watch.old }
{
    host_gate::open_watch(settings, extra, watch, pat_slots, pat_cells)
}

// Whether a PID is watched: 8, 9, 10 or 12.
#[unsafe(no_mangle)]
pub extern "C" fn petrizolu_watch_ask(watch: &[u64], pid: u32) -> u8
    ensures { result ≡ watch_asked watch.now pid }
{
    host_gate::ask(watch, pid)
}

// `petrizolu_gate_open` for a gate with an index over its rows: also the buckets are written.
#[unsafe(no_mangle)]
pub extern "C" fn petrizolu_indexed_open(
    gate: &mut [u64; 13],
    capacity: u64,
    settings: u32,
    change_rule: u64,
    extra: &[u16],
    keys: &[u64],
    changes: &[u64],
    buckets: &mut [u64],
    links: &[u64],
    watch: &mut [u64],
    pat_slots: &[u32],
    pat_cells: &[u8],
) -> u8
    ensures { indexed.begun result gate.new buckets.new watch.new ≡ indexed.gate_opened gate.old capacity settings change_rule extra.now keys.now changes.now buckets.old links.now pat_slots.now pat_cells.now watch.old }
{
    host_indexed::open(
        gate,
        capacity,
        settings,
        change_rule,
        extra,
        keys,
        changes,
        buckets,
        links,
        watch,
        pat_slots,
        pat_cells,
    )
}

// `petrizolu_gate_offer` through the index.
#[unsafe(no_mangle)]
pub extern "C" fn petrizolu_indexed_offer(
    gate: &mut [u64; 13],
    keys: &mut [u64],
    changes: &mut [u64],
    buckets: &mut [u64],
    links: &mut [u64],
    watch: &mut [u64],
    pat_slots: &mut [u32],
    pat_cells: &mut [u8],
    input: u32,
    pid: u32,
    section: &[u8],
    failure: &mut [u64; 3],
) -> u8
    ensures { indexed.left result gate.new keys.new changes.new buckets.new links.new (record_of watch.new pat_slots.new pat_cells.new) failure.new ≡ indexed.gate_offered gate.old keys.old changes.old buckets.old links.old (record_of watch.old pat_slots.old pat_cells.old) input pid section.now failure.old }
{
    host_indexed::offer(
        gate, keys, changes, buckets, links, watch, pat_slots, pat_cells, input, pid, section,
        failure,
    )
}

// Opens the streams of one input: 7 or 13. A refusal writes nothing.
#[unsafe(no_mangle)]
pub extern "C" fn petrizolu_streams_open(
    streams: &mut [u64; 3],
    count: u64,
    pids: &mut [u64],
    buffers: &[u8],
) -> u8
    ensures { stream_calls.begun result streams.new pids.new ≡ stream_calls.streams_opened streams.old count pids.old buffers.now }
{
    host_streams::open(streams, count, pids, buffers)
}

// Feeds a packet that came on an input, with the memory of that input: 29, 30, 43, 10, 11 or 37. `finished` is written with 29 only.
#[unsafe(no_mangle)]
pub extern "C" fn petrizolu_feed(
    gate: &mut [u64; 13],
    streams: &mut [u64; 3],
    keys: &mut [u64],
    changes: &mut [u64],
    watch: &mut [u64],
    pat_slots: &mut [u32],
    pat_cells: &mut [u8],
    pids: &mut [u64],
    buffers: &mut [u8],
    input: u32,
    packet: &[u8],
    places: &mut [u64],
    finished: &mut [u64; 1],
) -> u8
    ensures { packets.left result gate.new streams.new keys.new changes.new (record_of watch.new pat_slots.new pat_cells.new) pids.new buffers.new places.new finished.new ≡ packets.packet_fed gate.old streams.old keys.old changes.old (record_of watch.old pat_slots.old pat_cells.old) pids.old buffers.old input packet.now places.old finished.old }
{
    host_feed::feed(
        gate, streams, keys, changes, watch, pat_slots, pat_cells, pids, buffers, input, packet,
        places, finished,
    )
}

// How many packets at the front of some bytes are passed over: what as many feeds would count and leave. The next packet is for `petrizolu_feed`.
#[unsafe(no_mangle)]
pub extern "C" fn petrizolu_pass(
    gate: &[u64; 13],
    streams: &mut [u64; 3],
    keys: &[u64],
    changes: &[u64],
    watch: &[u64],
    pat_slots: &[u32],
    pat_cells: &[u8],
    pids: &mut [u64],
    buffers: &[u8],
    input: u32,
    packets: &[u8],
    places: &[u64],
) -> u64
    ensures { passes.left result streams.new pids.new ≡ passes.packets_passed gate.now streams.old keys.now changes.now (record_of watch.now pat_slots.now pat_cells.now) pids.old buffers.now input packets.now places.now }
{
    host_pass::pass(
        gate, streams, keys, changes, watch, pat_slots, pat_cells, pids, buffers, input, packets,
        places,
    )
}

// `petrizolu_feed` through the index.
#[unsafe(no_mangle)]
pub extern "C" fn petrizolu_indexed_feed(
    gate: &mut [u64; 13],
    streams: &mut [u64; 3],
    keys: &mut [u64],
    changes: &mut [u64],
    buckets: &mut [u64],
    links: &mut [u64],
    watch: &mut [u64],
    pat_slots: &mut [u32],
    pat_cells: &mut [u8],
    pids: &mut [u64],
    buffers: &mut [u8],
    input: u32,
    packet: &[u8],
    places: &mut [u64],
    finished: &mut [u64; 1],
) -> u8
    ensures { indexed_packets.left result gate.new streams.new keys.new changes.new buckets.new links.new (record_of watch.new pat_slots.new pat_cells.new) pids.new buffers.new places.new finished.new ≡ indexed_packets.packet_fed gate.old streams.old keys.old changes.old buckets.old links.old (record_of watch.old pat_slots.old pat_cells.old) pids.old buffers.old input packet.now places.old finished.old }
{
    host_feed_indexed::feed(
        gate, streams, keys, changes, buckets, links, watch, pat_slots, pat_cells, pids, buffers,
        input, packet, places, finished,
    )
}

// `petrizolu_pass` through the index.
#[unsafe(no_mangle)]
pub extern "C" fn petrizolu_indexed_pass(
    gate: &[u64; 13],
    streams: &mut [u64; 3],
    keys: &[u64],
    changes: &[u64],
    buckets: &[u64],
    links: &[u64],
    watch: &[u64],
    pat_slots: &[u32],
    pat_cells: &[u8],
    pids: &mut [u64],
    buffers: &[u8],
    input: u32,
    packets: &[u8],
    places: &[u64],
) -> u64
    ensures { passes.left result streams.new pids.new ≡ indexed_passes.packets_passed gate.now streams.old keys.now changes.now buckets.now links.now (record_of watch.now pat_slots.now pat_cells.now) pids.old buffers.now input packets.now places.now }
{
    host_pass_indexed::pass(
        gate, streams, keys, changes, buckets, links, watch, pat_slots, pat_cells, pids, buffers,
        input, packets, places,
    )
}

// Opens a set collector: 7 or 13. A refusal leaves the words as they were; nothing else lent is written.
#[unsafe(no_mangle)]
pub extern "C" fn petrizolu_sets_open(
    sets: &mut [u64; 6],
    limit: u64,
    size: u64,
    count: u64,
    heads: &[u64],
    slots: &[u32],
    cells: &[u8],
) -> u8
    ensures { words result sets.new ≡ sets_opened sets.old limit size count heads.now slots.now cells.now }
{
    host_sets::open(sets, limit, size, count, heads, slots, cells)
}

// Offers a section, with the input and the PID that it came on; PID 0xFFFFFFFF stands for none, which is refused (41). 5 writes the set's row into `row`.
#[unsafe(no_mangle)]
pub extern "C" fn petrizolu_sets_push(
    sets: &mut [u64; 6],
    heads: &mut [u64],
    slots: &mut [u32],
    cells: &mut [u8],
    input: u32,
    pid: u32,
    section: &[u8],
    row: &mut [u64; 1],
) -> u8
    ensures { sets_left result sets.new heads.new slots.new cells.new row.new ≡ sets_pushed sets.old heads.old slots.old cells.old input pid section.now row.old }
{
    host_sets::push(sets, heads, slots, cells, input, pid, section, row)
}

// Offers the sections of a list one after another, until one answers something else than 4: what that one answered; 5 writes the set's row into `row`. 42 and 10 of
// the list, and 10, 11 and 41 of the store, before anything is pushed. Every answer writes into `taken` how many bytes of the list were taken.
#[unsafe(no_mangle)]
pub extern "C" fn petrizolu_sets_push_all(
    sets: &mut [u64; 6],
    heads: &mut [u64],
    slots: &mut [u32],
    cells: &mut [u8],
    list: &[u8],
    row: &mut [u64; 1],
    taken: &mut [u64; 1],
) -> u8
    ensures { all_left (sets_left result sets.new heads.new slots.new cells.new row.new) taken.new ≡ sets_pushed_all sets.old heads.old slots.old cells.old list.now row.old }
{
    host_sets_all::push_all(sets, heads, slots, cells, list, row, taken)
}

// Empties all rows: 7, 10, or 41 where a row has no PID.
#[unsafe(no_mangle)]
pub extern "C" fn petrizolu_sets_clear(
    sets: &mut [u64; 6],
    heads: &[u64],
    slots: &[u32],
    cells: &[u8],
) -> u8
    ensures { words result sets.new ≡ sets_cleared sets.old heads.now slots.now cells.now }
{
    host_sets::clear(sets, heads, slots, cells)
}

// Has the set in a row another section, from a slot on? 8, 9, 10 or 41; 8 writes its number into `next`, and where its bytes are in the cells.
#[unsafe(no_mangle)]
pub extern "C" fn petrizolu_sets_next(
    sets: &[u64; 6],
    heads: &[u64],
    slots: &[u32],
    cells: &[u8],
    row: u64,
    from: u64,
    next: &mut [u64; 3],
) -> u8
    ensures { words result next.new ≡ sets_next sets.now heads.now slots.now cells.now row from next.old }
{
    host_sets::next(sets, heads, slots, cells, row, from, next)
}

// Opens an EIT collector: 7 or 13. A refusal leaves the words as they were; nothing else lent is written.
#[unsafe(no_mangle)]
pub extern "C" fn petrizolu_eit_open(
    eit: &mut [u64; 8],
    limit: u64,
    size: u64,
    count: u64,
    heads: &[u64],
    slots: &[u32],
    cells: &[u8],
    schedule_heads: &[u64],
    units: &[u32],
) -> u8
    ensures { words result eit.new ≡ eit_opened eit.old limit size count heads.now slots.now cells.now schedule_heads.now units.now }
{
    host_eit::open(
        eit,
        limit,
        size,
        count,
        heads,
        slots,
        cells,
        schedule_heads,
        units,
    )
}

// Offers a section, with the input and the PID that it came on; PID 0xFFFFFFFF stands for none, which is refused (41). 5 writes the set's row into `row`, 6 the schedule's.
#[unsafe(no_mangle)]
pub extern "C" fn petrizolu_eit_push(
    eit: &mut [u64; 8],
    heads: &mut [u64],
    slots: &mut [u32],
    cells: &mut [u8],
    schedule_heads: &mut [u64],
    units: &mut [u32],
    input: u32,
    pid: u32,
    section: &[u8],
    row: &mut [u64; 1],
) -> u8
    ensures { eit_left result eit.new heads.new slots.new cells.new schedule_heads.new units.new row.new ≡ eit_pushed eit.old heads.old slots.old cells.old schedule_heads.old units.old input pid section.now row.old }
{
    host_eit::push(
        eit,
        heads,
        slots,
        cells,
        schedule_heads,
        units,
        input,
        pid,
        section,
        row,
    )
}

// Offers the sections of a list as `petrizolu_sets_push_all` does: 5 writes the set's row into `row`, 6 the schedule's, and every answer into `taken` how many bytes of the list were taken.
#[unsafe(no_mangle)]
pub extern "C" fn petrizolu_eit_push_all(
    eit: &mut [u64; 8],
    heads: &mut [u64],
    slots: &mut [u32],
    cells: &mut [u8],
    schedule_heads: &mut [u64],
    units: &mut [u32],
    list: &[u8],
    row: &mut [u64; 1],
    taken: &mut [u64; 1],
) -> u8
    ensures { eit_all_left (eit_left result eit.new heads.new slots.new cells.new schedule_heads.new units.new row.new) taken.new ≡ eit_pushed_all eit.old heads.old slots.old cells.old schedule_heads.old units.old list.now row.old }
{
    host_eit_all::push_all(
        eit,
        heads,
        slots,
        cells,
        schedule_heads,
        units,
        list,
        row,
        taken,
    )
}

// Every set and every schedule leaves: 7, 10, or 41 where one has no PID.
#[unsafe(no_mangle)]
pub extern "C" fn petrizolu_eit_clear(
    eit: &mut [u64; 8],
    heads: &[u64],
    slots: &[u32],
    cells: &[u8],
    schedule_heads: &[u64],
    units: &[u32],
) -> u8
    ensures { words result eit.new ≡ eit_cleared eit.old heads.now slots.now cells.now schedule_heads.now units.now }
{
    host_eit::clear(eit, heads, slots, cells, schedule_heads, units)
}

// Sets and schedules that match the filter go: 7, 10, 41, 12 for a PID of the filter that is none, or 37 for such an input. A word with all 64 bits set is free, the PID 0xFFFFFFFF
// is "exactly none", which is refused (41).
#[unsafe(no_mangle)]
pub extern "C" fn petrizolu_eit_drop(
    eit: &mut [u64; 8],
    heads: &mut [u64],
    slots: &mut [u32],
    cells: &[u8],
    schedule_heads: &mut [u64],
    units: &mut [u32],
    filter: &[u64; 7],
) -> u8
    ensures { eit_dropped_to result eit.new heads.new slots.new schedule_heads.new units.new ≡ eit_dropped eit.old heads.old slots.old cells.now schedule_heads.old units.old filter.now }
{
    host_eit::drop(eit, heads, slots, cells, schedule_heads, units, filter)
}

// Has the set in a row another section, from a slot on? 8, 9, 10 or 41; 8 writes its number into `next`, and where its bytes are in the cells.
#[unsafe(no_mangle)]
pub extern "C" fn petrizolu_eit_next(
    eit: &[u64; 8],
    heads: &[u64],
    slots: &[u32],
    cells: &[u8],
    schedule_heads: &[u64],
    units: &[u32],
    row: u64,
    from: u64,
    next: &mut [u64; 3],
) -> u8
    ensures { words result next.new ≡ eit_next eit.now heads.now slots.now cells.now schedule_heads.now units.now row from next.old }
{
    host_eit::next(
        eit,
        heads,
        slots,
        cells,
        schedule_heads,
        units,
        row,
        from,
        next,
    )
}

// Has that table of the schedule in a row another section, from a slot on? Tables count from the first of the kind, 0x50 or 0x60, on.
#[unsafe(no_mangle)]
pub extern "C" fn petrizolu_eit_next_in_schedule(
    eit: &[u64; 8],
    heads: &[u64],
    slots: &[u32],
    cells: &[u8],
    schedule_heads: &[u64],
    units: &[u32],
    row: u64,
    table: u64,
    from: u64,
    next: &mut [u64; 3],
) -> u8
    ensures { words result next.new ≡ eit_next_in eit.now heads.now slots.now cells.now schedule_heads.now units.now row table from next.old }
{
    host_eit::next_in_schedule(
        eit,
        heads,
        slots,
        cells,
        schedule_heads,
        units,
        row,
        table,
        from,
        next,
    )
}

// The events of a section, entry by entry: 8, 9, 14, 18, 19 or 32. The list is a page: it shows entries from `skip` on as far as there is room. `listed` tells how many there
// are and, with 18, 19 and 32, the section's number and the place in it; 14 leaves all.
#[unsafe(no_mangle)]
pub extern "C" fn petrizolu_events(
    section: &[u8],
    skip: u64,
    list: &mut [u32],
    listed: &mut [u64; 3],
) -> u8
    ensures { listing result listed.new list.new ≡ section_listed section.now skip list.old listed.old }
{
    host_showing::events(section, skip, list, listed)
}

// The same of the set in a row that was handed out: 8, 9, 10, 18, 19, 32 or 41. 10 and 41 leave all.
#[unsafe(no_mangle)]
pub extern "C" fn petrizolu_eit_events(
    eit: &[u64; 8],
    heads: &[u64],
    slots: &[u32],
    cells: &[u8],
    schedule_heads: &[u64],
    units: &[u32],
    row: u64,
    skip: u64,
    list: &mut [u32],
    listed: &mut [u64; 3],
) -> u8
    ensures { listing result listed.new list.new ≡ set_listed eit.now heads.now slots.now cells.now schedule_heads.now units.now row skip list.old listed.old }
{
    host_showing::eit_events(
        eit,
        heads,
        slots,
        cells,
        schedule_heads,
        units,
        row,
        skip,
        list,
        listed,
    )
}

// The same of a table of the schedule in a row. Tables count from the first of the kind, 0x50 or 0x60, on.
#[unsafe(no_mangle)]
pub extern "C" fn petrizolu_eit_events_in_schedule(
    eit: &[u64; 8],
    heads: &[u64],
    slots: &[u32],
    cells: &[u8],
    schedule_heads: &[u64],
    units: &[u32],
    row: u64,
    table: u64,
    skip: u64,
    list: &mut [u32],
    listed: &mut [u64; 3],
) -> u8
    ensures { listing result listed.new list.new ≡ table_listed eit.now heads.now slots.now cells.now schedule_heads.now units.now row table skip list.old listed.old }
{
    host_showing::eit_events_in_schedule(
        eit,
        heads,
        slots,
        cells,
        schedule_heads,
        units,
        row,
        table,
        skip,
        list,
        listed,
    )
}

// The calendar date of a modified Julian day in eight decimal digits; 0 where there is none.
#[unsafe(no_mangle)]
pub extern "C" fn petrizolu_date(day: u32) -> u32
    ensures { result ≡ date_number day }
{
    host_showing::date(day)
}

// The entries of a NIT, BAT or SDT section, by the reader 1, 2 or 3: 8, 9, 35 or 36. `listed` tells how many there are and, with 35 and 36, the section's number and the place
// in it; these leave the list.
#[unsafe(no_mangle)]
pub extern "C" fn petrizolu_entries(
    reader: u32,
    section: &[u8],
    skip: u64,
    list: &mut [u32],
    listed: &mut [u64; 3],
) -> u8
    ensures { listing result listed.new list.new ≡ section_read reader section.now skip list.old listed.old }
{
    host_networks::entries(reader, section, skip, list, listed)
}

// The same of the set in a row that was handed out: 8, 9, 10, 35, 36 or 41. 10 and 41 leave all.
#[unsafe(no_mangle)]
pub extern "C" fn petrizolu_sets_entries(
    reader: u32,
    sets: &[u64; 6],
    heads: &[u64],
    slots: &[u32],
    cells: &[u8],
    row: u64,
    skip: u64,
    list: &mut [u32],
    listed: &mut [u64; 3],
) -> u8
    ensures { listing result listed.new list.new ≡ set_read reader sets.now heads.now slots.now cells.now row skip list.old listed.old }
{
    host_networks::sets_entries(reader, sets, heads, slots, cells, row, skip, list, listed)
}

// Compares two sets, each as its sections by rising number in its own bytes: 8 they differ, 9 they do not, 10, 12, 33, 34 or 41. The list has four words for each number that one
// side alone holds, or both with other bytes. `compared` tells how many entries there are, and whether versions and last numbers agree; 10, 12, 33 and 41 leave it, and 34 the list.
#[unsafe(no_mangle)]
pub extern "C" fn petrizolu_compare(
    first: &[u8],
    first_pid: u32,
    second: &[u8],
    second_pid: u32,
    list: &mut [u32],
    compared: &mut [u64; 3],
) -> u8
    ensures { comparison result compared.new list.new ≡ sets_compared first.now first_pid second.now second_pid list.old compared.old }
{
    host_guides::compare(first, first_pid, second, second_pid, list, compared)
}

// The same of two schedules, table by table; `tables` has a word for each of the kind's 16.
#[unsafe(no_mangle)]
pub extern "C" fn petrizolu_compare_schedules(
    first: &[u8],
    first_pid: u32,
    second: &[u8],
    second_pid: u32,
    tables: &mut [u32; 16],
    list: &mut [u32],
    compared: &mut [u64; 3],
) -> u8
    ensures { comparisons result compared.new tables.new list.new ≡ schedules_compared first.now first_pid second.now second_pid tables.old list.old compared.old }
{
    host_guides::compare_schedules(first, first_pid, second, second_pid, tables, list, compared)
}

// Which of two sets alone holds the section of a number, and where it stands in that side's bytes: 8, 9 or 10. 9 and 10 leave `held`.
#[unsafe(no_mangle)]
pub extern "C" fn petrizolu_held_by_one(
    first: &[u8],
    second: &[u8],
    number: u64,
    held: &mut [u64; 3],
) -> u8
    ensures { words result held.new ≡ held_by_one first.now second.now number held.old }
{
    host_guides::held_by_one(first, second, number, held)
}

// Is a log exactly that of a section list? 8, 10, 13, 38, 39, 40, 41 or 42. `settings` are capacity, repeats, change rule, limit, cell size, cell count, and how sets are taken: 0 with PIDs, 1 without (41), 2 as before.
// 38, 39 and 40 write the place; 42, 10, 41 and 13 leave all.
#[unsafe(no_mangle)]
pub extern "C" fn petrizolu_log_check(
    settings: &[u64; 7],
    sections: &[u8],
    log: &[u8],
    keys: &mut [u64],
    changes: &mut [u64],
    heads: &mut [u64],
    slots: &mut [u32],
    cells: &mut [u8],
    place: &mut [u64; 1],
) -> u8
    ensures { check_left result place.new (memory keys.new changes.new heads.new slots.new cells.new) ≡ log_checked settings.now sections.now log.now (memory keys.old changes.old heads.old slots.old cells.old) place.old }
{
    host_logs::check(
        settings, sections, log, keys, changes, heads, slots, cells, place,
    )
}

// Writes the log of a section list into the room: 7 writes its length, 44 where it is longer than the room, 10, 13, 41 or 42. All but 7 leave the room and the length.
#[unsafe(no_mangle)]
pub extern "C" fn petrizolu_log_write(
    settings: &[u64; 7],
    sections: &[u8],
    room: &mut [u8],
    keys: &mut [u64],
    changes: &mut [u64],
    heads: &mut [u64],
    slots: &mut [u32],
    cells: &mut [u8],
    length: &mut [u64; 1],
) -> u8
    ensures { write_left result length.new room.new (memory keys.new changes.new heads.new slots.new cells.new) ≡ log_written settings.now sections.now room.old (memory keys.old changes.old heads.old slots.old cells.old) length.old }
{
    host_logs::write(
        settings, sections, room, keys, changes, heads, slots, cells, length,
    )
}

// The record of a gate's answer to a section, for a monitor that keeps a log: 42, 13, or 7 with 0, 6 or 13 bytes.
#[unsafe(no_mangle)]
pub extern "C" fn petrizolu_log_offer_record(
    answer: u8,
    change_rule: u64,
    input: u32,
    pid: u32,
    section: &[u8],
    bytes: &mut [u8; 13],
    told: &mut [u64; 1],
) -> u8
    ensures { made result bytes.new told.new ≡ offer_made answer change_rule input pid section.now bytes.old told.old }
{
    host_log_records::offer_record(answer, change_rule, input, pid, section, bytes, told)
}

// The record of the set that a section completed: 7 with 10 bytes, or with 0 where there is none; PID 0xFFFFFFFF stands for none.
#[unsafe(no_mangle)]
pub extern "C" fn petrizolu_log_set_record(
    input: u32,
    pid: u32,
    section: &[u8],
    bytes: &mut [u8; 10],
    told: &mut [u64; 1],
) -> u8
    ensures { made result bytes.new told.new ≡ set_made input pid section.now bytes.old }
{
    host_log_records::set_record(input, pid, section, bytes, told)
}

// The record at a place of a log: 8 writes its twelve words; 9, 38 and 39 leave them.
#[unsafe(no_mangle)]
pub extern "C" fn petrizolu_log_read(log: &[u8], place: u64, fields: &mut [u64; 12]) -> u8
    ensures { words result fields.new ≡ log_read log.now place fields.old }
{
    host_log_records::read(log, place, fields)
}
