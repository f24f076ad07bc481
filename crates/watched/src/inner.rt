// The parts of opening and following, over words and PIDs that their callers have judged.
ghost use Rattle.std.specs.Prelude.{◌≡◌, cond, true, ◌+◌, ◌≤◌, length};
ghost use Rattle.std.proofs.Math.Seq.{paste};
ghost use Rattle.laws.specs.Bits.{add_bits, without};
ghost use Rattle.section.specs.Ids.{known_pids};
ghost use Rattle.watched.specs.Store.{all_pids, no_pids, protected_pids, filled, renewed_word, renewed, following};

use section::ids::Pid;

// Whether each of them is a PID: 12 where one is not.
pub fn pids_good(extra: &[u16]) -> bool
    ensures { result ≡ all_pids extra.now }
{
    extra.iter().all(|pid| *pid < 8192)
}

// Writes the three sets of a watch that was opened.
pub fn fill(words: &mut [u64], well_known: bool, extra: &[u16])
    requires in_bounds { 384 ≤ length words.old }
    requires extra_value { all_pids extra.now ≡ true }
    ensures { words.new ≡ filled words.old well_known extra.now }
{
    let protected = protected_set(well_known, extra);
    let none = no_pids();
    put(words, 0, &protected);
    put(words, 128, &protected);
    put(words, 256, &none);
}

// Follows the set n, the PIDs of a PAT's programs: they are added to the watch, and those followed before that are neither in n nor protected
// are dropped from it.
pub fn follow(words: &mut [u64], n: &[u64; 128])
    requires { 384 ≤ length words.old }
    ensures { words.new ≡ following words.old n.now }
{
    renew(words, n);
    put(words, 256, n);
}

// The set of the PIDs that are watched and protected from the start.
fn protected_set(well_known: bool, extra: &[u16]) -> [u64; 128]
    requires { all_pids extra.now ≡ true }
    ensures { result ≡ add_bits no_pids (protected_pids well_known extra.now) }
{
    let mut set = no_pids();
    add_known(&mut set, well_known);
    add_all(&mut set, extra);
    set
}

// The empty set.
fn no_pids() -> [u64; 128]
    ensures { result ≡ no_pids }
{
    [0u64; 128]
}

// Adds the well-known PIDs to the set, where that setting is on.
fn add_known(set: &mut [u64; 128], on: bool)
    ensures { set.new ≡ cond on (add_bits set.old known_pids) set.old }
{
    if on {
        let known = section::ids::well_known();
        add_all(set, &known);
    }
}

// Adds each PID to the set.
fn add_all(set: &mut [u64; 128], pids: &[u16])
    requires { all_pids pids.now ≡ true }
    ensures { set.new ≡ add_bits set.old pids.now }
{
    for pid in pids {
        section::pids::add(set, Pid(*pid));
    }
}

// Writes a set over the 128 words from `at` on.
fn put(words: &mut [u64], at: usize, set: &[u64])
    requires at_in_bounds { at + 128 ≤ length words.old }
    requires set_len { length set.now ≡ 128 }
    ensures { words.new ≡ paste words.old at set.now 128 }
{
    words[at..at + 128].copy_from_slice(set);
}

// Renews the watch for following n; the protected and the followed PIDs stay as they are.
fn renew(words: &mut [u64], n: &[u64])
    requires in_bounds { 384 ≤ length words.old }
    requires n_len { length n.now ≡ 128 }
    ensures { words.new ≡ paste words.old 0 (renewed words.old n.now) 128 }
{
    for i in 0..128 {
        words[i] = renewed_word(words[i], words[128 + i], words[256 + i], n[i]);
    }
}

// Of 64 PIDs those watched after n was followed. Dropped are those followed before that are neither in n nor protected.
fn renewed_word(watched: u64, protected: u64, followed: u64, n: u64) -> u64
    ensures { result ≡ renewed_word watched protected followed n }
{
    let dropped = less(followed, n | protected);
    less(watched, dropped) | n
}

// The bits of x that y has not.
fn less(x: u64, y: u64) -> u64
    ensures { result ≡ without x y }
{
    x ^ (x & y)
}
