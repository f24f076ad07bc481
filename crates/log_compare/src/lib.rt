// Records that are expected beside those that a log has (docs/RULES.md, "Logs"). Parts for the checker: it passes records that are as expected, and says
// of the first that is not what is wrong with it.
#![tactic(auto)]

ghost use Rattle.std.specs.Prelude.{◌≡◌, ◌<◌, length};
ghost use Rattle.log_compare.specs.Compare.{met_of, passed_one, passed, finished, records_in, Laid};

use log_records::record_size;

// What is wrong with a record, and where it stands: no such kind (38), cut off (39); missing, too many or another one (40).
#[derive(Clone, Copy, Debug, PartialEq, Eq)]
pub enum Wrong {
    Unknown(usize),
    CutOff(usize),
    Missing(usize),
    TooMany(usize),
    Differs(usize),
}

// The record at this place of the log, which does not end there: of no kind, cut off, or whole, and then the place after it.
fn met(log: &[u8], place: usize) -> Result<usize, Wrong>
    requires { place < length log.now }
    ensures { result ≡ met_of log.now place }
{
    let size = record_size(log[place]);
    if size == 0 {
        return Err(Wrong::Unknown(place));
    }
    if log.len() - place < size {
        return Err(Wrong::CutOff(place));
    }
    Ok(place + size)
}

// One record that is expected at this place; the place after it.
fn compare_one(log: &[u8], place: usize, expected: &[u8]) -> Result<usize, Wrong>
    ensures { result ≡ passed_one log.now place expected.now }
{
    if log.len() <= place {
        return Err(Wrong::Missing(place));
    }
    let end = met(log, place)?;
    if !cells::same_bytes(&log[place..end], expected) {
        return Err(Wrong::Differs(place));
    }
    Ok(end)
}

// Records that are expected from this place on, one after another in bytes; the place after them.
pub fn compare(log: &[u8], place: usize, expected: &[u8]) -> Result<usize, Wrong>
    requires { Laid expected.now }
    ensures { result ≡ passed log.now place (records_in expected.now) }
{
    let mut at = place;
    let mut rest = expected;
    while let Some(kind) = rest.first() {
        let (record, behind) = rest.split_at(record_size(*kind));
        at = compare_one(log, at, record)?;
        rest = behind;
    }
    Ok(at)
}

// No record is expected from this place on.
pub fn finish(log: &[u8], place: usize) -> Result<(), Wrong>
    ensures { result ≡ finished log.now place }
{
    if log.len() <= place {
        return Ok(());
    }
    met(log, place)?;
    Err(Wrong::TooMany(place))
}
