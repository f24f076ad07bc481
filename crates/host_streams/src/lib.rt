// The three words of the streams of one input: 0 count, 1 packets, 2 malformed; the word that tells how many sections a packet finished; and their opening for a host
// in another language.
#![tactic(auto)]

ghost use Rattle.std.specs.Prelude.{◌≡◌};
ghost use Rattle.demux_state.specs.State.{said_of};
ghost use Rattle.host_words.specs.Answers.{words};
ghost use Rattle.host_streams.specs.Words.{streams_of, words_of, words_opened, words_after, finished_after, told, tells_opened, tells_fed};
ghost use Rattle.host_streams.specs.Calls.{begun, streams_opened};

use answers::{Numbered, Outcome};
use demux_state::{Answer, Fed};
use streams::{Opened, Streams};

pub fn streams(words: &[u64; 3]) -> Streams
    ensures { result ≡ streams_of words.now }
{
    Streams {
        count: words[0] as usize,
        packets: words[1],
        malformed: words[2],
    }
}

// All three words.
fn write(words: &mut [u64; 3], streams: Streams)
    ensures { words.new ≡ words_of streams }
{
    *words = [streams.count as u64, streams.packets, streams.malformed];
}

// Streams that were opened write all three; a refused opening none.
fn write_where(words: &mut [u64; 3], answer: Outcome, streams: Streams)
    ensures { words.new ≡ words_opened answer streams words.old }
{
    match answer {
        Ok(()) => write(words, streams),
        Err(_) => {}
    }
}

// Writes what an opening leaves in the words, and gives its number.
fn write_opened(streams: &mut [u64; 3], opened: Opened) -> u8
    ensures { words result streams.new ≡ tells_opened opened streams.old }
{
    let answer = opened.answer;
    write_where(streams, answer, opened.streams);
    answer.number()
}

// Opens the streams of one input: 7 or 13. A refusal writes nothing.
pub fn open(streams: &mut [u64; 3], count: u64, pids: &mut [u64], buffers: &[u8]) -> u8
    ensures { begun result streams.new pids.new ≡ streams_opened streams.old count pids.old buffers.now }
{
    let opened = streams::open(count as usize, pids, buffers);
    write_opened(streams, opened)
}

// The counts: a packet never changes how many buffers are lent.
fn write_counts(words: &mut [u64; 3], streams: Streams)
    ensures { words.new ≡ words_after words.old streams }
{
    *words = [words[0], streams.packets, streams.malformed];
}

// How many sections a packet that was taken finished; every other answer leaves the word as it was.
fn write_finished(finished: &mut [u64; 1], answer: Answer)
    ensures { finished.new ≡ finished_after (said_of answer) finished.old }
{
    match answer {
        Answer::Taken(n) => *finished = [n as u64],
        Answer::Malformed => {}
        Answer::NoBuffer => {}
        Answer::Refused(_) => {}
    }
}

// Writes what a packet leaves in the words, and gives its number.
pub fn write_fed(
    gate: &mut [u64; 13],
    streams: &mut [u64; 3],
    finished: &mut [u64; 1],
    fed: Fed,
) -> u8
    ensures { told result gate.new streams.new finished.new ≡ tells_fed fed gate.old streams.old finished.old }
{
    let answer = fed.answer;
    host_gate_words::write_counts(gate, fed.gate, fed.counters);
    write_counts(streams, fed.streams);
    write_finished(finished, answer);
    answer.number()
}
