// A row's sections, read out by a reader.
ghost use Rattle.std.specs.Prelude.{◌≡◌, IfOk};
ghost use Rattle.readers.specs.Reader.{held, moved_on};

use readers::SetReader;
use std::io;
use std::io::Write;

// The next section is said, and the reader stands behind it.
fn say_next<'a>(
    stdout: &mut impl Write,
    r: SetReader<'a>,
    row: &'a [u32],
    size: usize,
) -> io::Result<SetReader<'a>>
    ensures { IfOk result (λ then. held then ≡ moved_on size row.now (held r.entry)) }
{
    let then = readers::next_part(r, row, size);
    crate::lines::say_part(stdout, then.next, then.part)?;
    Ok(then)
}

// The sections of a row, of which no example has more than two; behind the last one the reader's part is empty.
pub fn read_row<'a>(
    stdout: &mut impl Write,
    cells: &'a [u8],
    row: &'a [u32],
    size: usize,
) -> io::Result<()> {
    let start = readers::reader(cells);
    let first = say_next(stdout, start, row, size)?;
    let second = say_next(stdout, first, row, size)?;
    say_next(stdout, second, row, size)?;
    Ok(())
}
