// The set collector for a host in another language, which keeps a collector as plain words: what the words hold is taken apart, the one call is made,
// and what it leaves is written back. Every content of the words has one answer.
#![tactic(auto)]

ghost use Rattle.std.specs.Prelude.{◌≡◌};
ghost use Rattle.host_words.specs.Answers.{words};
ghost use Rattle.host_sets.specs.Calls.{sets_left, sets_opened, sets_pushed, sets_cleared, sets_next};

// Opens a set collector: 7 or 13. A refusal leaves the words as they were; nothing else lent is written.
pub fn open(
    sets: &mut [u64; 6],
    limit: u64,
    size: u64,
    count: u64,
    heads: &[u64],
    slots: &[u32],
    cells: &[u8],
) -> u8
    ensures { words result sets.new ≡ sets_opened sets.old limit size count heads.now slots.now cells.now }
{
    let opened = sets::open(
        limit as usize,
        size as usize,
        count as usize,
        heads,
        slots,
        cells,
    );
    host_sets_words::write_opened(sets, opened)
}

// Offers a section, with the input and the PID that it came on; PID 0xFFFFFFFF stands for none, which is refused (41). 5 writes the set's row into `row`.
pub fn push(
    sets: &mut [u64; 6],
    heads: &mut [u64],
    slots: &mut [u32],
    cells: &mut [u8],
    input: u32,
    pid: u32,
    section: &[u8],
    row: &mut [u64; 1],
) -> u8
    ensures { sets_left result sets.new heads.new slots.new cells.new row.new ≡ sets_pushed sets.old heads.old slots.old cells.old input pid section.now row.old }
{
    let before = host_sets_words::sets(sets);
    let on = host_words::inputs::number(input);
    let from = host_words::pids::maybe(pid);
    let pushed = sets::push(before, heads, slots, cells, on, from, section);
    host_sets_words::write_pushed(sets, row, pushed)
}

// Empties all rows: 7, 10 or 41.
pub fn clear(sets: &mut [u64; 6], heads: &[u64], slots: &[u32], cells: &[u8]) -> u8
    ensures { words result sets.new ≡ sets_cleared sets.old heads.now slots.now cells.now }
{
    let before = host_sets_words::sets(sets);
    let cleared = sets::clear(before, heads, slots, cells);
    host_sets_words::write_cleared(sets, cleared)
}

// Has the set in a row another section, from a slot on? 8, 9, 10 or 41; 8 writes its number into `next`, and where its bytes are in the cells.
pub fn next(
    sets: &[u64; 6],
    heads: &[u64],
    slots: &[u32],
    cells: &[u8],
    row: u64,
    from: u64,
    next: &mut [u64; 3],
) -> u8
    ensures { words result next.new ≡ sets_next sets.now heads.now slots.now cells.now row from next.old }
{
    let collector = host_sets_words::sets(sets);
    let told = sets::next_section(collector, heads, slots, cells, row as usize, from as usize);
    host_words::sections::write_next(next, told)
}
