// What the gate remembers: for each key its last version and change number, the keys in order of first arrival, over two lent slices with a row
// at each index. While rows are free a new key takes the next one; after that it replaces the key that came first, so that the rows are a ring.
// A known key keeps its place.
#![tactic(auto)]

ghost use Rattle.std.specs.Prelude.{◌≡◌, Bool, ◌+◌, ◌<◌, ◌≤◌, length, take, drop, set};
ghost use Rattle.ring.specs.Store.{room_of, whole_of, Whole, stamp_of, row_of, free_row, renewed, arrived, seen_of, keys_after, changes_after};

#[derive(Clone, Copy)]
pub struct Ring {
    // How many keys are kept; 0 acts as 1.
    pub capacity: u64,
    // How many rows hold a key.
    pub used: usize,
    // The row of the key that came first.
    pub first: usize,
}

// What offering a key with its numbers tells: whether they are new, and whether another key left for it.
#[derive(Clone, Copy)]
pub struct Seen {
    pub ring: Ring,
    pub changed: bool,
    pub evicted: bool,
}

// How many rows a ring of this capacity has.
pub fn room(capacity: u64) -> usize
    ensures { result ≡ room_of capacity }
{
    if capacity == 0 { 1 } else { capacity as usize }
}

// Whether the ring fits slices of these lengths, and its two numbers its room.
pub fn is_whole(ring: Ring, keys: usize, changes: usize) -> bool
    ensures { result ≡ whole_of ring keys changes }
{
    let all = room(ring.capacity);
    (ring.used <= all) & (ring.first < all) & (all <= keys) & (all <= changes)
}

// Offers a key with its version and change number.
pub fn admit(
    ring: Ring,
    keys: &mut [u64],
    changes: &mut [u64],
    key: u64,
    version: u8,
    change: u32,
) -> Seen
    requires { Whole ring (length keys.old) (length changes.old) }
    ensures value { result ≡ seen_of ring keys.old changes.old key (stamp_of version change) }
    ensures keys_after { keys.new ≡ keys_after ring keys.old key }
    ensures changes_after { changes.new ≡ changes_after ring keys.old changes.old key (stamp_of version change) }
{
    let used = ring.used;
    let number = stamp(version, change);
    let i = find(keys, used, key);
    if i < used {
        renew(ring, changes, i, number)
    } else {
        arrive(ring, keys, changes, key, number)
    }
}

// A version and a change number as the one number that a row holds.
pub fn stamp(version: u8, change: u32) -> u64
    ensures { result ≡ stamp_of version change }
{
    (version as u64) * 4294967296 + (change as u64)
}

// The first of the rows in use, from row `from` on, that has the key, or used where none has it: row by row.
fn find_from(keys: &[u64], used: usize, key: u64, from: usize) -> usize
    requires { (used ≤ length keys.now) × (from ≤ used) }
    ensures { result ≡ from + row_of (drop from (take used keys.now)) key }
{
    for i in from..used {
        if keys[i] == key {
            return i;
        }
    }
    used
}

// The first of the rows in use that has the key, or used where none has it. Four rows a turn: half of a turn's work is to ask whether there are more.
// Over turns counted by a `for` the same search takes a fourth more time.
fn find(keys: &[u64], used: usize, key: u64) -> usize
    requires { used ≤ length keys.now }
    ensures { result ≡ row_of (take used keys.now) key }
{
    let mut i = 0;
    while used - i >= 4 {
        if keys[i] == key {
            return i;
        }
        if keys[i + 1] == key {
            return i + 1;
        }
        if keys[i + 2] == key {
            return i + 2;
        }
        if keys[i + 3] == key {
            return i + 3;
        }
        i += 4;
    }
    find_from(keys, used, key, i)
}

// The key is in row i: its number is replaced, and nothing else.
pub fn renew(ring: Ring, changes: &mut [u64], i: usize, number: u64) -> Seen
    requires { i < length changes.old }
    ensures value { result ≡ renewed ring changes.old i number }
    ensures changes_after { changes.new ≡ set changes.old i number }
{
    let changed = changes[i] != number;
    changes[i] = number;
    Seen {
        ring: ring,
        changed: changed,
        evicted: false,
    }
}

// The key is new: it takes the next row, or where none is left the row of the key that came first.
pub fn arrive(ring: Ring, keys: &mut [u64], changes: &mut [u64], key: u64, number: u64) -> Seen
    requires { Whole ring (length keys.old) (length changes.old) }
    ensures value { result ≡ arrived ring }
    ensures keys_after { keys.new ≡ set keys.old (free_row ring) key }
    ensures changes_after { changes.new ≡ set changes.old (free_row ring) number }
{
    let all = room(ring.capacity);
    let used = ring.used;
    let first = ring.first;
    if used < all {
        keys[used] = key;
        changes[used] = number;
        Seen {
            ring: Ring {
                capacity: ring.capacity,
                used: used + 1,
                first: first,
            },
            changed: true,
            evicted: false,
        }
    } else {
        keys[first] = key;
        changes[first] = number;
        Seen {
            ring: Ring {
                capacity: ring.capacity,
                used: used,
                first: (first + 1) % all,
            },
            changed: true,
            evicted: true,
        }
    }
}
