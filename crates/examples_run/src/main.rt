// Examples of docs/RULES.md that no theorem has: a last_table_id past the kind never lets a schedule go out. Before it a set, an EIT set and a
// schedule are collected and read out section by section. What is printed is held to what the second implementation says of the same sections
// (compare/examples.txt).
#![tactic(auto)]

ghost use Rattle.std.specs.Prelude.{◌≤◌, length};

use answers::Numbered;
use eit_state::Eit;
use std::io;
use std::io::Write;
use store::Sets;

// ---- the set collector

fn collect(
    stdout: &mut impl Write,
    sets: Sets,
    heads: &mut [u64],
    slots: &mut [u32],
    cells: &mut [u8],
    section: &[u8],
) -> io::Result<Sets> {
    let pushed = sets::push(sets, heads, slots, cells, 0, Some(0x0011), section);
    let answer = pushed.answer;
    let then = pushed.sets;
    examples_read::lines::say_line(stdout, b"sets ", answer.number() as u64)?;
    if let sets_settle::PushAnswer::Set(row) = answer {
        examples_read::read_set(stdout, then, heads, slots, cells, row)?;
    }
    Ok(then)
}

// A set of two sections.
fn set_of_two(
    stdout: &mut impl Write,
    heads: &mut [u64],
    slots: &mut [u32],
    cells: &mut [u8],
) -> io::Result<()> {
    let opened = sets::open(1, 64, 2, heads, slots, cells);
    let answer = opened.answer;
    let begun = opened.sets;
    examples_read::lines::say_line(stdout, b"sets ", answer.number() as u64)?;
    let first = b"\x42\xB0\x0A\x00\x01\xC1\x00\x01\xAA\x83\x15\x53\xFC";
    let second = b"\x42\xB0\x0B\x00\x01\xC1\x01\x01\xBB\xBB\xA2\xED\x60\x9A";
    let sets = collect(stdout, begun, heads, slots, cells, first)?;
    collect(stdout, sets, heads, slots, cells, second)?;
    Ok(())
}

// ---- the EIT collector

// Sections of 18 bytes each, one after another, to a collector of three sets, three schedules and eight cells.
fn collect_all(
    stdout: &mut impl Write,
    heads: &mut [u64],
    slots: &mut [u32],
    cells: &mut [u8],
    schedule_heads: &mut [u64],
    units: &mut [u32],
    sections: &[u8],
) -> io::Result<()>
    requires { length sections.now ≤ 90 }
{
    let opened = eit::open(3, 64, 8, heads, slots, cells, schedule_heads, units);
    let answer = opened.answer;
    examples_read::lines::say_line(stdout, b"eit ", answer.number() as u64)?;
    let mut eit = opened.eit;
    for section in sections.chunks_exact(18) {
        let pushed = eit::push(
            eit,
            heads,
            slots,
            cells,
            schedule_heads,
            units,
            0,
            Some(0x0012),
            section,
        );
        let answer = pushed.answer;
        let then = pushed.eit;
        examples_read::read_out(
            stdout,
            answer,
            then,
            heads,
            slots,
            cells,
            schedule_heads,
            units,
        )?;
        eit = then;
    }
    Ok(())
}

// What is lent: three rows, three schedules and eight cells of 64 bytes.
fn heads() -> [u64; 36] {
    [0; 36]
}

fn slots() -> [u32; 864] {
    [0; 864]
}

fn cells() -> [u8; 512] {
    [0; 512]
}

fn units() -> [u32; 13824] {
    [0; 13824]
}

fn main(rt: HostRuntime) -> io::Result<()> {
    let mut stdout = rt.stdout();
    let mut set_heads = heads();
    let mut set_slots = slots();
    let mut set_cells = cells();
    let mut schedule_heads = heads();
    let mut tables = units();
    set_of_two(&mut stdout, &mut set_heads, &mut set_slots, &mut set_cells)?;
    // A present/following set of two sections; a schedule of two tables, the first of which has two segments of one section.
    let whole = b"\
        \x4E\xB0\x0F\x00\x01\xC1\x00\x01\x00\x01\x00\x01\x01\x4E\x51\xC1\x2E\x43\
        \x4E\xB0\x0F\x00\x01\xC1\x01\x01\x00\x01\x00\x01\x01\x4E\x0A\x60\xF2\x89\
        \x50\xB0\x0F\x00\x01\xC1\x00\x08\x00\x01\x00\x01\x00\x51\x05\x5D\xF6\x3E\
        \x50\xB0\x0F\x00\x01\xC1\x08\x08\x00\x01\x00\x01\x08\x51\x5B\x99\x68\x52\
        \x51\xB0\x0F\x00\x01\xC1\x00\x00\x00\x01\x00\x01\x00\x51\x31\x93\x43\x19";
    collect_all(
        &mut stdout,
        &mut set_heads,
        &mut set_slots,
        &mut set_cells,
        &mut schedule_heads,
        &mut tables,
        whole,
    )?;
    // last_table_id 0x60 on schedule actual: no table past 0x5F is of the kind, so the schedule never goes out.
    let past_the_kind = b"\
        \x50\xB0\x0F\x00\x01\xC1\x00\x00\x00\x01\x00\x01\x00\x60\xA6\x97\xFD\xFF\
        \x51\xB0\x0F\x00\x01\xC1\x00\x00\x00\x01\x00\x01\x00\x60\xE1\x60\x33\x3E\
        \x5F\xB0\x0F\x00\x01\xC1\x00\x00\x00\x01\x00\x01\x00\x60\x43\xAD\xC5\x69";
    collect_all(
        &mut stdout,
        &mut set_heads,
        &mut set_slots,
        &mut set_cells,
        &mut schedule_heads,
        &mut tables,
        past_the_kind,
    )
}
