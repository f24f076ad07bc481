// The entries of a loop and their descriptors, listed. The reader of entries passes to the reader of descriptors, and that one hands back. Both call on inside one
// section alone, whose bytes bound how deep; a caller goes from section to section by a loop.
#![tactic(auto)]

ghost use Rattle.std.specs.Prelude.{◌≡◌, ◌+◌, ◌≤◌, ◌<◌, length, get_or, take, drop};
ghost use Rattle.std.proofs.Math.Seq.{paste};
ghost use Rattle.laws.specs.Entries.{counted};
ghost use Rattle.entry_words.specs.Words.{entry_words, descriptor_words};
ghost use Rattle.listing.specs.Store.{put_in, listing, Sound};

use section::bytes::wide;

// What stays while a section is walked: the bytes of an entry's header, the original_network_id that services share (0 of other entries), the section's number, and how
// many entries the list passes over.
#[derive(Clone, Copy)]
pub struct Loop {
    pub header: usize,
    pub network: u32,
    pub number: u32,
    pub skip: usize,
}

// How many entries there are; or where the one starts that runs past its loop, and how many stand before it.
#[derive(Clone, Copy)]
pub enum Walked {
    Done(usize),
    Past(usize, usize),
}

// The bytes that the header at `at` counts.
fn count_at(s: &[u8], at: usize, header: usize) -> usize
    requires { (at + header ≤ length s.now) × (2 ≤ header) × (length s.now < 4294967296) }
    ensures { (result ≡ counted header (drop at s.now)) × (result < 4096) }
{
    entry_words::count(&s[at..at + header])
}

// Twelve words go in at `at`. By a loop: for the library's copy_from_slice they stand on the stack first, at each entry of a listing once more.
fn write(list: &mut [u32], at: usize, words: &[u32])
    requires { (at + 12 ≤ length list.old) × (length words.now ≡ 12) }
    ensures { list.new ≡ paste list.old at words.now 12 }
{
    for i in 0..entry_words::WORDS {
        list[at + i] = words[i];
    }
}

// Entry k goes into the list where it is not passed over and there is room for it.
fn put(list: &mut [u32], skip: usize, k: usize, words: &[u32; 12])
    ensures { list.new ≡ put_in list.old skip k words.now }
{
    if k < skip {
        return;
    }
    let row = k - skip;
    if row < list.len() / entry_words::WORDS {
        write(list, row * entry_words::WORDS, words);
    }
}

fn put_entry(s: &[u8], of: Loop, at: usize, list: &mut [u32], k: usize)
    requires { (at + of.header ≤ length s.now) × (length s.now < 4294967296) × (4 ≤ of.header) }
    ensures { list.new ≡ put_in list.old of.skip k (entry_words of.network of.number at (take of.header (drop at s.now))) }
{
    let words = entry_words::entry_words(&s[at..at + of.header], of.network, of.number, at as u32);
    put(list, of.skip, k, &words);
}

fn put_descriptor(s: &[u8], of: Loop, at: usize, list: &mut [u32], k: usize)
    requires { (at + 2 ≤ length s.now) × (length s.now < 4294967296) }
    ensures { list.new ≡ put_in list.old of.skip k (descriptor_words of.number at (get_or s.now at 0) (get_or s.now (at + 1) 0)) }
{
    let words = entry_words::descriptor_words(s[at], s[at + 1], of.number, at as u32);
    put(list, of.skip, k, &words);
}

// An entry at `at`: it is listed, and its descriptors are read. s ends where the loop does; k entries stand before.
#[cycle(descriptors_entries)]
pub fn entries(s: &[u8], of: Loop, at: usize, list: &mut [u32], k: usize) -> Walked
    requires { Sound of (length s.now) at k }
    ensures { (result, list.new) ≡ listing of s.now at 0 list.old k }
{
    let header = of.header;
    if s.len() <= at {
        return Walked::Done(k);
    }
    if s.len() - at < header {
        return Walked::Past(at, k);
    }
    let size = count_at(s, at, header);
    if s.len() - at - header < size {
        return Walked::Past(at, k);
    }
    put_entry(s, of, at, list, k);
    descriptors(s, of, at + header, size, list, k + 1)
}

// The descriptors of an entry, of which `left` bytes are left; then the next entry. One byte has no room for a tag and a length.
#[cycle(descriptors_entries)]
pub fn descriptors(s: &[u8], of: Loop, at: usize, left: usize, list: &mut [u32], k: usize) -> Walked
    requires sound { Sound of (length s.now) at k }
    requires left_in_bounds { at + left ≤ length s.now }
    ensures { (result, list.new) ≡ listing of s.now at left list.old k }
{
    if left == 0 {
        return entries(s, of, at, list, k);
    }
    if left < 2 {
        return Walked::Past(at, k);
    }
    let size = wide(s[at + 1]);
    if left - 2 < size {
        return Walked::Past(at, k);
    }
    put_descriptor(s, of, at, list, k);
    descriptors(s, of, at + 2 + size, left - 2 - size, list, k + 1)
}
