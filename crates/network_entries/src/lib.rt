// The entries of a NIT, BAT or SDT section in which every loop ends where its length says, listed (docs/RULES.md, "Entries"). The section stands somewhere in lent bytes,
// so that the place of an entry is one in them: the host reads a descriptor's bytes there.
#![tactic(auto)]

ghost use Rattle.std.specs.Prelude.{◌≡◌, ◌+◌, ◌-◌, ◌<◌, ◌≤◌, length, take, drop};
ghost use Rattle.listing.specs.Store.{found_from, words_of};
ghost use Rattle.rules_networks.specs.Networks.{nit_broken, sdt_broken, nit_entries, sdt_entries, fault_of, entries_of};
ghost use Rattle.network_faults.specs.Faults.{LoopIn};
ghost use Rattle.network_entries.specs.Entries.{count_of, listed_from, SectionIn};

use listing::{Loop, Walked};
use rules_networks::Table;
use section::bytes;

// How many entries a walk has come to.
fn count_of(walked: Walked) -> usize
    ensures { result ≡ count_of walked }
{
    match walked {
        Walked::Done(count) => count,
        Walked::Past(_, count) => count,
    }
}

// The loop from `at` to `end`, whose first `left` bytes are descriptors, after k entries; how many there are then.
fn list_loop(
    bytes: &[u8],
    of: Loop,
    at: usize,
    left: usize,
    end: usize,
    list: &mut [u32],
    k: usize,
) -> usize
    requires loop_in { LoopIn (length bytes.now) of.header at left end }
    requires k_bound { k < 8589934592 }
    ensures { ((result, list.new) ≡ listed_from of.skip k (words_of of.network of.number (found_from of.header (take end bytes.now) at left)) list.old) × (result ≤ k + (end - at)) }
{
    let walked = listing::descriptors(&bytes[0..end], of, at, left, list, k);
    count_of(walked)
}

// The network's or bouquet's descriptors, then its transport streams.
fn list_nit(
    bytes: &[u8],
    start: usize,
    size: usize,
    number: usize,
    skip: usize,
    list: &mut [u32],
    k: usize,
) -> usize
    requires section_in { SectionIn (length bytes.now) start size number k }
    requires bytes_value { nit_broken (take size (drop start bytes.now)) ≡ 0 }
    ensures { ((result, list.new) ≡ listed_from skip k (nit_entries start number (take size (drop start bytes.now))) list.old) × (result ≤ k + size) }
{
    let of = Loop {
        header: entry_words::STREAM_HEADER,
        network: 0,
        number: number as u32,
        skip,
    };
    let n = network_faults::count_at(bytes, start + 8);
    let second = start + 10 + n;
    let then = list_loop(bytes, of, start + 10, n, second, list, k);
    list_loop(bytes, of, second + 2, 0, start + size - 4, list, then)
}

// The services, each with the original_network_id of its section.
fn list_sdt(
    bytes: &[u8],
    start: usize,
    size: usize,
    number: usize,
    skip: usize,
    list: &mut [u32],
    k: usize,
) -> usize
    requires section_in { SectionIn (length bytes.now) start size number k }
    requires bytes_value { sdt_broken (take size (drop start bytes.now)) ≡ 0 }
    ensures { ((result, list.new) ≡ listed_from skip k (sdt_entries start number (take size (drop start bytes.now))) list.old) × (result ≤ k + size) }
{
    let of = Loop {
        header: entry_words::SERVICE_HEADER,
        network: bytes::word(bytes, start + 8) as u32,
        number: number as u32,
        skip,
    };
    list_loop(bytes, of, start + 11, 0, start + size - 4, list, k)
}

// The section of `size` bytes from `start` on, with k entries before it; how many there are then.
pub fn list_section(
    table: Table,
    bytes: &[u8],
    start: usize,
    size: usize,
    number: usize,
    skip: usize,
    list: &mut [u32],
    k: usize,
) -> usize
    requires section_in { SectionIn (length bytes.now) start size number k }
    requires bytes_value { fault_of table (take size (drop start bytes.now)) ≡ 0 }
    ensures { ((result, list.new) ≡ listed_from skip k (entries_of table start number (take size (drop start bytes.now))) list.old) × (result ≤ k + size) }
{
    match table {
        Table::Nit => list_nit(bytes, start, size, number, skip, list, k),
        Table::Bat => list_nit(bytes, start, size, number, skip, list, k),
        Table::Sdt => list_sdt(bytes, start, size, number, skip, list, k),
        Table::None => k,
    }
}
