// Logs for a host in another language (docs/RULES.md, "Logs"): one checked against a section list, and one written. Every content of what is lent has one answer.
#![tactic(auto)]

ghost use Rattle.std.specs.Prelude.{◌≡◌};
ghost use Rattle.log_sections.specs.Steps.{memory};
ghost use Rattle.host_logs.specs.Calls.{check_left, log_checked, write_left, log_written};

// Is the log exactly that of the sections? 8, 10, 13, 38, 39, 40, 41 or 42. 42, 10, 41 and 13 leave the memory of the run.
pub fn check(
    settings: &[u64; 7],
    sections: &[u8],
    log: &[u8],
    keys: &mut [u64],
    changes: &mut [u64],
    heads: &mut [u64],
    slots: &mut [u32],
    cells: &mut [u8],
    place: &mut [u64; 1],
) -> u8
    ensures { check_left result place.new (memory keys.new changes.new heads.new slots.new cells.new) ≡ log_checked settings.now sections.now log.now (memory keys.old changes.old heads.old slots.old cells.old) place.old }
{
    let s = host_log_words::settings_of(settings);
    let told = log_check::check(s, sections, log, keys, changes, heads, slots, cells);
    host_log_words::write_place(place, told)
}

// Writes the log of the sections into the room: 7, 10, 13, 41, 42 or 44. All but 7 leave the room, 42, 10, 41 and 13 the memory of the run too.
pub fn write(
    settings: &[u64; 7],
    sections: &[u8],
    room: &mut [u8],
    keys: &mut [u64],
    changes: &mut [u64],
    heads: &mut [u64],
    slots: &mut [u32],
    cells: &mut [u8],
    length: &mut [u64; 1],
) -> u8
    ensures { write_left result length.new room.new (memory keys.new changes.new heads.new slots.new cells.new) ≡ log_written settings.now sections.now room.old (memory keys.old changes.old heads.old slots.old cells.old) length.old }
{
    let s = host_log_words::settings_of(settings);
    let told = log_write::write(s, sections, room, keys, changes, heads, slots, cells);
    host_log_words::write_length(length, told)
}
