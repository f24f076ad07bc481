// The words of the PIDs, over slices and PIDs that their callers have judged: which buffer a PID holds, which is free, and who gives its buffer back.
ghost use Rattle.std.specs.Prelude.{◌≡◌, ◌+◌, ◌*◌, ◌<◌, ◌≤◌, length};
ghost use Rattle.cells.specs.Cells.{lowest_free};
ghost use Rattle.laws.specs.Bits.{without};
ghost use Rattle.streams.specs.Store.{are_enough, words_at, with_words, buffer_of, marked, marked_to, is_named, pid_back, word_back, given_back, left_of, InWords, TwoSets};

use crate::Streams;
use assemble::Words;
use section::ids::Pid;

const WORDS_EACH: usize = 4;

const PIDS: usize = 8192;

// A set of PIDs: PID p is bit p % 64 of word p / 64.
const SET_WORDS: usize = 128;

// ---- what is lent

// 1 to 8,192 buffers, and the words and bytes that they ask for.
pub fn are_enough(count: usize, words: usize, bytes: usize) -> bool
    ensures { result ≡ are_enough count words bytes }
{
    if count == 0 {
        return false;
    }
    if Streams::MOST_BUFFERS < count {
        return false;
    }
    (crate::PID_WORDS <= words) & (count * assemble::BUFFER_BYTES <= bytes)
}

// ---- the words of a PID

pub fn words(pids: &[u64], pid: Pid) -> Words
    requires { InWords pids.now pid }
    ensures { result ≡ words_at pids.now pid }
{
    let at = pid.0 as usize * WORDS_EACH;
    Words {
        number: pids[at],
        counter: pids[at + 1],
        first: pids[at + 2],
        size: pids[at + 3],
    }
}

pub fn put(pids: &mut [u64], pid: Pid, words: Words)
    requires { InWords pids.old pid }
    ensures { pids.new ≡ with_words pids.old pid words }
{
    let at = pid.0 as usize * WORDS_EACH;
    pids[at] = words.number;
    pids[at + 1] = words.counter;
    pids[at + 2] = words.first;
    pids[at + 3] = words.size;
}

// The buffer that a PID holds, by its word 0, or count where it holds none.
pub fn buffer(number: u64, count: usize) -> usize
    ensures { result ≡ buffer_of number count }
{
    if number == 0 {
        return count;
    }
    if (count as u64) < number {
        return count;
    }
    (number - 1) as usize
}

// ---- the buffers that are free

// Adds the buffer that a PID's word 0 names, where it is below count.
fn mark(map: &mut [u64; 1024], number: u64, count: usize)
    requires { count ≤ 8192 }
    ensures { map.new ≡ marked number count map.old }
{
    let b = buffer(number, count);
    if b < count {
        let k = b / 64;
        map[k] = map[k] | (1u64 << (b % 64));
    }
}

// Adds each buffer that the word 0 of one of the first `to` PIDs names.
fn mark_to(map: &mut [u64; 1024], pids: &[u64], to: usize, count: usize)
    requires { (to * 4 ≤ length pids.now) × (count ≤ 8192) }
    ensures { map.new ≡ marked_to pids.now count to map.old }
{
    for n in (0..to).rev() {
        mark(map, pids[n * WORDS_EACH], count);
    }
}

// The lowest buffer that no PID holds, or count where there is none.
pub fn lowest_free(pids: &[u64], count: usize) -> usize
    requires { (32768 ≤ length pids.now) × (count ≤ 8192) }
    ensures { result ≡ lowest_free (is_named pids.now 8192) count }
{
    let mut map = [0u64; 1024];
    mark_to(&mut map, pids, PIDS, count);
    cells::lowest_clear(&map, count)
}

// ---- PIDs that left

// The words of PID p become 0 where its bit is 1.
fn give_pid(pids: &mut [u64], p: usize, bit: u64)
    requires { (p < 8192) × (32768 ≤ length pids.old) }
    ensures { pids.new ≡ pid_back pids.old p bit }
{
    if bit == 1 {
        let at = p * WORDS_EACH;
        pids[at] = 0;
        pids[at + 1] = 0;
        pids[at + 2] = 0;
        pids[at + 3] = 0;
    }
}

// The words of each PID of word k of a set become 0.
fn give_word(pids: &mut [u64], k: usize, left: u64)
    requires { (k < 128) × (32768 ≤ length pids.old) }
    ensures { pids.new ≡ word_back left k 64 pids.old }
{
    if left == 0 {
        return;
    }
    for n in (0..64).rev() {
        give_pid(pids, k * 64 + n, (left >> n) % 2);
    }
}

// The bits of one word of a set that the same word of another has not.
fn less(before: u64, after: u64) -> u64
    ensures { result ≡ without before after }
{
    before ^ (before & after)
}

// The PIDs that were in the set `before` and are not in `after` give their buffers back: their four words become 0. Words of the sets that say of no PID
// that it left are passed over whole.
pub fn give_back(pids: &mut [u64], before: &[u64], after: &[u64])
    requires { TwoSets pids.old before.now after.now }
    ensures { pids.new ≡ given_back (left_of before.now after.now) 8192 pids.old }
{
    for k in (0..SET_WORDS).rev() {
        give_word(pids, k, less(before[k], after[k]));
    }
}
