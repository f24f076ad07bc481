// A column of tags beside the rows of a collector, for one call: 16 bits of each row's key, one row after another. A search goes through 2 bytes a row, many
// rows at a time, where the heads have 96 bytes a row; only a row with the key's tag is looked at itself. Nothing of it outlives the call.
#![tactic(auto)]

ghost use Rattle.std.specs.Prelude.{◌≡◌, Bool, ◌&&◌, ℕ, ◌+◌, ◌-◌, ◌*◌, ◌<◌, ◌≤◌, min, eqb, leb, ltb, length};
ghost use Rattle.laws.specs.Lists.{any, first_from};
ghost use Rattle.rows.specs.Rows.{key_at, same_key, row_of};
ghost use Rattle.columns.specs.Columns.{tag_of, Tells};

use rows::Key;

// The most rows that a column has.
pub const ROWS: usize = 8192;

// Rows whose tags are looked at together.
const BLOCK: usize = 256;

// The fewest rows in use for which a column is made.
const FEWEST: usize = 512;

// The most bytes that one section of a list takes there.
const LARGEST: usize = log_list::HEAD + log_list::LONGEST;

// Whether a column is worth its making for a list of so many bytes: not for few rows, nor for a list that one section may fill; and it has room for the rows.
pub fn pays(used: usize, bytes: usize) -> bool
    ensures { result ≡ (leb 512 used && leb used 8192 && ltb 4103 bytes) }
{
    (FEWEST <= used) & (used <= ROWS) & (LARGEST < bytes)
}

// A column with no tags yet.
pub fn room() -> [u16; 8192]
    ensures { 8192 ≡ length result }
{
    [0u16; ROWS]
}

fn tag(key: Key) -> u16
    ensures { result ≡ tag_of key }
{
    let from = key.from;
    let mixed = key.extension
        ^ (key.table_id << 8)
        ^ (from.pid << 3)
        ^ (key.transport_stream_id << 5);
    (mixed % 65536) as u16
}

// The tag of each row in use.
pub fn fill(tags: &mut [u16], heads: &[u64], used: usize)
    requires { (used ≤ length tags.old) × (used * 12 ≤ length heads.now) }
    ensures { Tells tags.new heads.now used }
{
    for i in 0..used {
        tags[i] = tag(rows::key_at(heads, i));
    }
}

// Whether one of the tags is t. All of them are looked at: with no way out of the loop many are compared at a time.
fn any_tag(tags: &[u16], t: u16) -> bool
    ensures { result ≡ any (λ (x : ℕ). eqb x t) tags.now }
{
    let mut found = false;
    for x in tags {
        found |= *x == t;
    }
    found
}

// Whether row i has the key, whose tag is t.
fn row_is(tags: &[u16], heads: &[u64], key: Key, t: u16, i: usize) -> bool
    requires i_in_bounds { (i < length tags.now) × (i * 12 + 12 ≤ length heads.now) × (t ≡ tag_of key) }
    requires tells { Tells tags.now heads.now (i + 1) }
    ensures { result ≡ same_key (key_at heads.now i) key }
{
    if tags[i] != t {
        return false;
    }
    rows::same_key(rows::key_at(heads, i), key)
}

// Of the rows from a to before e the first that has the key, or e.
fn find_among(tags: &[u16], heads: &[u64], key: Key, t: u16, a: usize, e: usize) -> usize
    requires a_le_e { (a ≤ e) × (e ≤ length tags.now) × (e * 12 ≤ length heads.now) × (t ≡ tag_of key) }
    requires tells { Tells tags.now heads.now e }
    ensures { result ≡ first_from (λ (k : ℕ). same_key (key_at heads.now k) key) (e - a) a }
{
    for i in a..e {
        if row_is(tags, heads, key, t, i) {
            return i;
        }
    }
    e
}

// The same, without a look at the rows where none of them has the tag.
fn find_block(tags: &[u16], heads: &[u64], key: Key, t: u16, a: usize, e: usize) -> usize
    requires a_le_e { (a ≤ e) × (e ≤ length tags.now) × (e * 12 ≤ length heads.now) × (t ≡ tag_of key) }
    requires tells { Tells tags.now heads.now e }
    ensures { result ≡ first_from (λ (k : ℕ). same_key (key_at heads.now k) key) (e - a) a }
{
    if any_tag(&tags[a..e], t) {
        return find_among(tags, heads, key, t, a, e);
    }
    e
}

// Where the block from a on ends.
fn block_end(a: usize, used: usize) -> usize
    requires { a ≤ used }
    ensures { result ≡ min (a + 256) used }
{
    if used - a < BLOCK { used } else { a + BLOCK }
}

// The first row in use that has the key, or used where none has it: what `rows::find` gives.
pub fn find(tags: &[u16], heads: &[u64], key: Key, used: usize) -> usize
    requires used_in_bounds { (used ≤ length tags.now) × (used * 12 ≤ length heads.now) }
    requires tells { Tells tags.now heads.now used }
    ensures { result ≡ row_of heads.now key used }
{
    let t = tag(key);
    for a in (0..used).step_by(BLOCK) {
        let e = block_end(a, used);
        let i = find_block(tags, heads, key, t, a, e);
        if i < e {
            return i;
        }
    }
    used
}
