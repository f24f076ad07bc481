// The ring's rows by key: a chain of rows for each bucket, over two more lent slices with a word for each row. `buckets` has the first row of each
// chain, `links` the row after each row; a word is row + 1, and 0 ends a chain. A look-up walks the chain of its key's bucket.
//
// The hash is fixed and public, so whoever chooses the keys can choose keys of one bucket. All rows are then one chain, and a walk, cut at as many
// steps as there are rows, costs what a search through the rows costs: a key is never lost, and no offer takes longer than in order of the capacity.
#![tactic(auto)]

ghost use Rattle.std.specs.Prelude.{◌≡◌, ◌<◌, ◌≤◌, length, set, get_or};
ghost use Rattle.ring.specs.Store.{room_of, Whole, stamp_of};
ghost use Rattle.ring_index.specs.Store.{bucket_of, Covers, index_of, walk_of, cleared_by, linked, unlinked, entered, seen_by, keys_by, changes_by, index_by};

use ring::{Ring, Seen};

// The bucket of a key among so many.
pub fn bucket(key: u64, room: usize) -> usize
    requires { 0 < room }
    ensures value { result ≡ bucket_of key room }
    ensures upper_bound { result < room }
{
    let low = key % 4294967296;
    let high = key / 4294967296;
    (((low * 1640531527 + high * 1540483477) / 65536) as usize) % room
}

// No row is in a chain.
pub fn clear(buckets: &mut [u64], room: usize)
    requires { room ≤ length buckets.old }
    ensures { buckets.new ≡ cleared_by room buckets.old }
{
    buckets[0..room].fill(0);
}

// The first row of a chain whose word is the value, or used where none has it: at most `room` steps from the row that `head` names, and none
// past a row that is not in use.
pub fn walk(words: &[u64], links: &[u64], used: usize, room: usize, head: u64, value: u64) -> usize
    requires used_in_bounds { used ≤ length words.now }
    requires used_in_bounds_2 { used ≤ length links.now }
    ensures { result ≡ walk_of words.now links.now used value room head }
{
    let mut at = head as usize;
    for _ in 0..room {
        if (at == 0) | (used < at) {
            return used;
        }
        let row = at - 1;
        if words[row] == value {
            return row;
        }
        at = links[row] as usize;
    }
    used
}

// Puts a row at the head of a chain.
pub fn link(buckets: &mut [u64], links: &mut [u64], home: usize, row: usize)
    requires home_in_bounds { home < length buckets.old }
    requires row_in_bounds { row < length links.old }
    ensures { index_of buckets.new links.new ≡ linked (index_of buckets.old links.old) home row }
{
    links[row] = buckets[home];
    buckets[home] = (row as u64) + 1;
}

// Takes a row out of a chain: the word that names it names the row after it.
pub fn unlink(
    buckets: &mut [u64],
    links: &mut [u64],
    used: usize,
    room: usize,
    home: usize,
    row: usize,
)
    requires home_in_bounds { home < length buckets.old }
    requires row_in_bounds { row < length links.old }
    requires used_in_bounds { used ≤ length links.old }
    ensures { index_of buckets.new links.new ≡ unlinked (index_of buckets.old links.old) used room home row }
{
    let name = (row as u64) + 1;
    let next = links[row];
    let head = buckets[home];
    if head == name {
        buckets[home] = next;
        return;
    }
    let prior = walk(links, links, used, room, head, name);
    if prior < used {
        links[prior] = next;
    }
}

// A new key of the bucket `home` gets its row in the index: the next one, or where none is left the row of the key that came first, which leaves
// its own chain for it.
pub fn enter(ring: Ring, keys: &[u64], buckets: &mut [u64], links: &mut [u64], home: usize)
    requires covers { Covers ring (length buckets.old) (length links.old) }
    requires used_bound { ring.used ≤ room_of ring.capacity }
    requires first_bound { ring.first < room_of ring.capacity }
    requires capacity_in_bounds { room_of ring.capacity ≤ length keys.now }
    requires home_bound { home < room_of ring.capacity }
    ensures { index_of buckets.new links.new ≡ entered ring keys.now (index_of buckets.old links.old) home }
{
    let room = ring::room(ring.capacity);
    let used = ring.used;
    let first = ring.first;
    if used < room {
        link(buckets, links, home, used);
        return;
    }
    let old = bucket(keys[first], room);
    unlink(buckets, links, used, room, old, first);
    link(buckets, links, home, first);
}

// Offers a key with its version and change number.
pub fn admit(
    ring: Ring,
    keys: &mut [u64],
    changes: &mut [u64],
    buckets: &mut [u64],
    links: &mut [u64],
    key: u64,
    version: u8,
    change: u32,
) -> Seen
    requires whole { Whole ring (length keys.old) (length changes.old) }
    requires covers { Covers ring (length buckets.old) (length links.old) }
    ensures value { result ≡ seen_by ring keys.old changes.old (index_of buckets.old links.old) key (stamp_of version change) }
    ensures keys_after { keys.new ≡ keys_by ring keys.old (index_of buckets.old links.old) key }
    ensures changes_after { changes.new ≡ changes_by ring keys.old changes.old (index_of buckets.old links.old) key (stamp_of version change) }
    ensures links_after { index_of buckets.new links.new ≡ index_by ring keys.old (index_of buckets.old links.old) key }
{
    let room = ring::room(ring.capacity);
    let used = ring.used;
    let number = ring::stamp(version, change);
    let home = bucket(key, room);
    let head = buckets[home];
    let i = walk(keys, links, used, room, head, key);
    if i < used {
        return ring::renew(ring, changes, i, number);
    }
    enter(ring, keys, buckets, links, home);
    ring::arrive(ring, keys, changes, key, number)
}
