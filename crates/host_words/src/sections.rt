// The three words of a section that a question tells of: 0 number, 1 start, 2 length.
ghost use Rattle.std.specs.Prelude.{◌≡◌};
ghost use Rattle.host_words.specs.Answers.{words};
ghost use Rattle.host_words.specs.Sections.{section_after, tells_next};

use answers::{Numbered, Reply};
use readers::Next;

// The words of the section. A "no" and a refusal leave them as they were.
fn write(section: &mut [u64; 3], answer: Reply, next: Next)
    ensures { section.new ≡ section_after answer next section.old }
{
    match answer {
        Ok(true) => *section = [next.number as u64, next.start as u64, next.length as u64],
        Ok(false) | Err(_) => {}
    }
}

// Writes the section that a question told of, and gives the answer's number.
pub fn write_next(section: &mut [u64; 3], next: Next) -> u8
    ensures { words result section.new ≡ tells_next next section.old }
{
    let answer = next.answer;
    write(section, answer, next);
    answer.number()
}
