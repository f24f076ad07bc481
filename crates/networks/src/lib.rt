// What a NIT, BAT or SDT section and a set that was handed out say (docs/RULES.md, "Entries"; EN 300 468, 5.2.1 to 5.2.3): every transport stream or service and every
// descriptor, one entry of twelve words each, into a lent list. The list is a window: it shows entries from `skip` on as far as there is room, and `count` says how many
// there are. Every call takes any content of what is lent and has one answer; 10, 41, 35 and 36 leave the list as it was.
#![tactic(auto)]

ghost use Rattle.std.specs.Prelude.{◌≡◌, ◌≤◌, length};
ghost use Rattle.rules_networks.specs.Networks.{fault_of};
ghost use Rattle.store.specs.Store.{store};
ghost use Rattle.networks.specs.Store.{read_section, read_set};

use answers::Refusal;
use network_sets::{Read, ReadAnswer};
use rules_networks::Table;
use section::bytes;
use store::Sets;

// The length of a section that is not refused, as section_length says it.
fn own_length(table: Table, s: &[u8]) -> usize
    requires { fault_of table s.now ≡ 0 }
    ensures { (result ≡ length s.now) × (result ≤ 4098) }
{
    3 + bytes::section_length(s)
}

// The entries of a section. Its form and its CRC are not judged here: a collector did.
pub fn entries(table: Table, section: &[u8], skip: usize, list: &mut [u32]) -> Read
    ensures { (result, list.new) ≡ read_section table section.now skip list.old }
{
    let number = network_faults::byte_at(section, 6);
    if let Err(fault) = network_faults::judge(table, section) {
        return network_sets::refused(number, fault);
    }
    let size = own_length(table, section);
    let count = network_entries::list_section(table, section, 0, size, number, skip, list, 0);
    network_sets::ended(skip, count)
}

// The entries of the set in a row.
pub fn entries_of_set(
    table: Table,
    sets: Sets,
    heads: &[u64],
    slots: &[u32],
    cells: &[u8],
    row: usize,
    skip: usize,
    list: &mut [u32],
) -> Read
    ensures { (result, list.new) ≡ read_set table (store sets heads.now slots.now cells.now) row skip list.old }
{
    let whole = store::is_whole(sets, heads, slots, cells);
    if whole {
        let without = without_pid::any_without_pid(heads, sets.used);
        if without {
            return network_sets::nothing(ReadAnswer::Refused(Refusal::NoPid));
        }
        if handed::is_set_out(heads, sets.used, row) {
            let part = rows::row_slots(heads, slots, row);
            return network_sets::read_slots(table, part, sets.size, cells, skip, list);
        }
        return network_sets::nothing(ReadAnswer::No);
    }
    network_sets::nothing(ReadAnswer::Refused(Refusal::NotWhole))
}
