// A section list read from its bytes (docs/RULES.md, "Logs"): for each section an input (1 byte), a PID (2), a length (2), then so many bytes. Parts for the
// checker and the writer.
#![tactic(auto)]

ghost use Rattle.std.specs.Prelude.{◌≡◌, ◌+◌, ◌-◌, ◌≤◌, ◌<◌, length};
ghost use Rattle.std.specs.Iterator.{at_most};
ghost use Rattle.rules_logs.specs.Sections.{sections_in};
ghost use Rattle.log_list.specs.List.{place_at, next_at, judged_of, WholeFrom, PlacedAt, Gives};

use section::bytes::{wide, word};

// The most bytes that a section of a list may have.
pub const LONGEST: usize = 4098;

// How many bytes stand before those of a section.
pub const HEAD: usize = 5;

// One section of a list: its bytes are `length` from `start` on, and the next begins where they end.
#[derive(Clone, Copy)]
pub struct Place {
    pub input: u8,
    pub pid: u16,
    pub start: usize,
    pub length: usize,
}

// What may be wrong with a list: it ends inside a section (10), or tells of a section of more than 4,098 bytes (42).
#[derive(Clone, Copy, Debug, PartialEq, Eq)]
pub enum ListError {
    Cut,
    TooLong,
}

// What the five bytes at this place say.
fn place_at(list: &[u8], place: usize) -> Place
    requires { place + 5 ≤ length list.now }
    ensures { result ≡ place_at list.now place }
{
    Place {
        input: list[place],
        pid: word(list, place + 1),
        start: place + HEAD,
        length: wide(list[place + 3]) * 256 + wide(list[place + 4]),
    }
}

// The section that begins at this place, none at the end. A length over 4,098 is told first, also where the bytes behind it are missing.
pub fn read_next(list: &[u8], place: usize) -> Result<Option<Place>, ListError>
    ensures { result ≡ next_at list.now place }
{
    if list.len() <= place {
        return Ok(None);
    }
    if list.len() - place < HEAD {
        return Err(ListError::Cut);
    }
    let p = place_at(list, place);
    if LONGEST < p.length {
        return Err(ListError::TooLong);
    }
    if list.len() - p.start < p.length {
        return Err(ListError::Cut);
    }
    Ok(Some(p))
}

// The section that begins at this place of a list that is whole from there on.
pub fn section_at(list: &[u8], place: usize) -> Place
    requires whole_from { WholeFrom list.now place }
    requires place_in_bounds { place < length list.now }
    ensures { PlacedAt list.now place result }
{
    place_at(list, place)
}

// The whole list, from its start: the first bad section decides.
pub fn judge(list: &[u8]) -> Result<(), ListError>
    ensures { result ≡ judged_of (sections_in list.now) }
{
    let mut at = 0;
    while let Some(p) = read_next(list, at)? {
        at = p.start + p.length;
    }
    Ok(())
}

// The sections of a list that is whole from a place on, one after another.
#[derive(Clone, Copy)]
pub struct Sections<'a> {
    list: &'a [u8],
    at: usize,
}

impl<'a> Sections<'a> {
    // Those from this place on.
    pub fn new(list: &'a [u8], at: usize) -> Sections<'a>
        requires { WholeFrom list.now at }
        ensures list { result.list.now ≡ list.now }
        ensures at { result.at ≡ at }
    {
        Sections { list, at }
    }
}

impl<'a> Iterator for Sections<'a> {
    type Item = Place;

    ghost can_next = { λ s. WholeFrom s.list.now s.at };

    ghost next_gives = { Gives };

    ghost remaining = { λ s. at_most (length s.list.now - s.at) };

    fn next(&mut self) -> Option<Place> {
        if self.list.len() <= self.at {
            return None;
        }
        let place = section_at(self.list, self.at);
        self.at = place.start + place.length;
        Some(place)
    }
}
