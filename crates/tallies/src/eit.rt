// The column of what the EIT collector answered to a section.
ghost use Rattle.std.specs.Prelude.{◌≡◌};
ghost use Rattle.tallies.specs.Columns.{eit_column, eit_refusal};

use answers::Refusal;
use eit_state::PushAnswer;

const CONFLICT: u8 = 22;

const NO_CELL: u8 = 21;

const RANGE: u8 = 23;

fn refused(refusal: Refusal) -> usize
    ensures { result ≡ eit_refusal refusal }
{
    let number = refusal.number();
    if number == CONFLICT {
        return 6;
    }
    if number == NO_CELL {
        return 7;
    }
    if number == RANGE {
        return 8;
    }
    9
}

pub fn column(answer: PushAnswer) -> usize
    ensures { result ≡ eit_column answer }
{
    match answer {
        PushAnswer::Nothing => 10,
        PushAnswer::Set(_) => 4,
        PushAnswer::Schedule(_) => 5,
        PushAnswer::Refused(refusal) => refused(refusal),
    }
}
