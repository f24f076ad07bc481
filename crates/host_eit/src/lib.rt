// The EIT collector for a host in another language, which keeps a collector as plain words: what the words hold is taken apart, the one call is made,
// and what it leaves is written back. Every content of the words has one answer.
#![tactic(auto)]

ghost use Rattle.std.specs.Prelude.{◌≡◌};
ghost use Rattle.host_words.specs.Answers.{words};
ghost use Rattle.host_eit.specs.Calls.{eit_opened, eit_left, eit_pushed, eit_cleared, eit_dropped_to, eit_dropped, eit_next, eit_next_in};

// Opens an EIT collector: 7 or 13. A refusal leaves the words as they were; nothing else lent is written.
pub fn open(
    eit: &mut [u64; 8],
    limit: u64,
    size: u64,
    count: u64,
    heads: &[u64],
    slots: &[u32],
    cells: &[u8],
    schedule_heads: &[u64],
    units: &[u32],
) -> u8
    ensures { words result eit.new ≡ eit_opened eit.old limit size count heads.now slots.now cells.now schedule_heads.now units.now }
{
    let opened = eit::open(
        limit as usize,
        size as usize,
        count as usize,
        heads,
        slots,
        cells,
        schedule_heads,
        units,
    );
    host_eit_words::write_opened(eit, opened)
}

// Offers a section, with the input and the PID that it came on; PID 0xFFFFFFFF stands for none, which is refused (41). 5 writes the set's row into `row`, 6 the schedule's.
pub fn push(
    eit: &mut [u64; 8],
    heads: &mut [u64],
    slots: &mut [u32],
    cells: &mut [u8],
    schedule_heads: &mut [u64],
    units: &mut [u32],
    input: u32,
    pid: u32,
    section: &[u8],
    row: &mut [u64; 1],
) -> u8
    ensures { eit_left result eit.new heads.new slots.new cells.new schedule_heads.new units.new row.new ≡ eit_pushed eit.old heads.old slots.old cells.old schedule_heads.old units.old input pid section.now row.old }
{
    let before = host_eit_words::eit(eit);
    let on = host_words::inputs::number(input);
    let from = host_words::pids::maybe(pid);
    let pushed = eit::push(
        before,
        heads,
        slots,
        cells,
        schedule_heads,
        units,
        on,
        from,
        section,
    );
    host_eit_words::write_pushed(eit, row, pushed)
}

// Every set and every schedule leaves: 7, 10 or 41.
pub fn clear(
    eit: &mut [u64; 8],
    heads: &[u64],
    slots: &[u32],
    cells: &[u8],
    schedule_heads: &[u64],
    units: &[u32],
) -> u8
    ensures { words result eit.new ≡ eit_cleared eit.old heads.now slots.now cells.now schedule_heads.now units.now }
{
    let before = host_eit_words::eit(eit);
    let cleared = eit::clear(before, heads, slots, cells, schedule_heads, units);
    host_eit_words::write_turned(eit, cleared)
}

// Sets and schedules that match the filter go: 7, 10, 41, 12 for a PID of the filter that is none, or 37 for such an input. A word with all 64 bits set is free, the PID
// 0xFFFFFFFF is "exactly none", which is refused (41).
pub fn drop(
    eit: &mut [u64; 8],
    heads: &mut [u64],
    slots: &mut [u32],
    cells: &[u8],
    schedule_heads: &mut [u64],
    units: &mut [u32],
    filter: &[u64; 7],
) -> u8
    ensures { eit_dropped_to result eit.new heads.new slots.new schedule_heads.new units.new ≡ eit_dropped eit.old heads.old slots.old cells.now schedule_heads.old units.old filter.now }
{
    let before = host_eit_words::eit(eit);
    let wanted = host_eit_words::filter(filter);
    let dropped = eit::drop(before, heads, slots, cells, schedule_heads, units, wanted);
    host_eit_words::write_turned(eit, dropped)
}

// Has the set in a row another section, from a slot on? 8, 9, 10 or 41; 8 writes its number into `next`, and where its bytes are in the cells.
pub fn next(
    eit: &[u64; 8],
    heads: &[u64],
    slots: &[u32],
    cells: &[u8],
    schedule_heads: &[u64],
    units: &[u32],
    row: u64,
    from: u64,
    next: &mut [u64; 3],
) -> u8
    ensures { words result next.new ≡ eit_next eit.now heads.now slots.now cells.now schedule_heads.now units.now row from next.old }
{
    let collector = host_eit_words::eit(eit);
    let told = eit::next_section(
        collector,
        heads,
        slots,
        cells,
        schedule_heads,
        units,
        row as usize,
        from as usize,
    );
    host_words::sections::write_next(next, told)
}

// Has that table of the schedule in a row another section, from a slot on? Tables count from the first of the kind, 0x50 or 0x60, on.
pub fn next_in_schedule(
    eit: &[u64; 8],
    heads: &[u64],
    slots: &[u32],
    cells: &[u8],
    schedule_heads: &[u64],
    units: &[u32],
    row: u64,
    table: u64,
    from: u64,
    next: &mut [u64; 3],
) -> u8
    ensures { words result next.new ≡ eit_next_in eit.now heads.now slots.now cells.now schedule_heads.now units.now row table from next.old }
{
    let collector = host_eit_words::eit(eit);
    let told = eit::next_in_schedule(
        collector,
        heads,
        slots,
        cells,
        schedule_heads,
        units,
        row as usize,
        table as usize,
        from as usize,
    );
    host_words::sections::write_next(next, told)
}
