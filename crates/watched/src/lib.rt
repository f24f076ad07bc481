// Which PIDs to look at: three sets of PIDs over 384 words that the host lends. Words 0 to 127 hold the PIDs watched, 128 to 255 those
// protected, which following never drops, 256 to 383 those followed, the N of the last PAT. PID p is bit p % 64 of its set's word p / 64.
// Every content of the words is whole; words past 384 are never read or written.
#![tactic(auto)]

ghost use Rattle.std.specs.Prelude.{◌≡◌};
ghost use Rattle.answers.specs.Answers.{reply_no};
ghost use Rattle.watched.specs.Store.{opening_by, opened, asked};

use answers::{Outcome, Refusal, Reply};
use section::ids::Pid;

pub mod inner;

// How many words the host lends.
pub const WORDS: usize = 384;

// Opens the watch: the well-known PIDs, where that setting is on, and the extra ones are watched and protected; none is followed. A refusal
// writes nothing.
pub fn open(words: &mut [u64], well_known: bool, extra: &[u16]) -> Outcome
    ensures { opening_by result words.new ≡ opened words.old well_known extra.now }
{
    if !inner::pids_good(extra) {
        return Err(Refusal::BadPid);
    }
    if words.len() < WORDS {
        return Err(Refusal::TooLittle);
    }
    inner::fill(words, well_known, extra);
    Ok(())
}

// Whether a PID is watched.
pub fn ask(words: &[u64], pid: u16) -> Reply
    ensures { reply_no result ≡ asked words.now pid }
{
    if words.len() < WORDS {
        return Err(Refusal::NotWhole);
    }
    let p = Pid::make(pid)?;
    Ok(section::pids::has(words, p))
}
