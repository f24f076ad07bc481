// The column of what the set collector answered to a section.
ghost use Rattle.std.specs.Prelude.{◌≡◌};
ghost use Rattle.tallies.specs.Columns.{set_column, set_refusal};

use answers::Refusal;
use sets_settle::PushAnswer;

const CONFLICT: u8 = 22;

const NO_CELL: u8 = 21;

fn refused(refusal: Refusal) -> usize
    ensures { result ≡ set_refusal refusal }
{
    let number = refusal.number();
    if number == CONFLICT {
        return 2;
    }
    if number == NO_CELL {
        return 3;
    }
    10
}

pub fn column(answer: PushAnswer) -> usize
    ensures { result ≡ set_column answer }
{
    match answer {
        PushAnswer::Nothing => 10,
        PushAnswer::Set(_) => 1,
        PushAnswer::Refused(refusal) => refused(refusal),
    }
}
