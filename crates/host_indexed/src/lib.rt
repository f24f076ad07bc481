// The gate with an index for a host in another language: `host_gate` with a bucket and a link for each row.
#![tactic(auto)]

ghost use Rattle.std.specs.Prelude.{◌≡◌};
ghost use Rattle.pats.specs.Store.{record_of};
ghost use Rattle.host_indexed.specs.Calls.{begun, gate_opened, left, gate_offered};

// `petrizolu_gate_open` for a gate with an index over its rows: also the buckets are written.
pub fn open(
    gate: &mut [u64; 13],
    capacity: u64,
    settings: u32,
    change_rule: u64,
    extra: &[u16],
    keys: &[u64],
    changes: &[u64],
    buckets: &mut [u64],
    links: &[u64],
    watch: &mut [u64],
    pat_slots: &[u32],
    pat_cells: &[u8],
) -> u8
    ensures { begun result gate.new buckets.new watch.new ≡ gate_opened gate.old capacity settings change_rule extra.now keys.now changes.now buckets.old links.now pat_slots.now pat_cells.now watch.old }
{
    let asked = host_gate_words::settings(capacity, settings, change_rule);
    let opened = gate_pats_indexed::open(
        asked, extra, keys, changes, buckets, links, watch, pat_slots, pat_cells,
    );
    host_gate_words::write_opened(gate, opened)
}

// `petrizolu_gate_offer` through the index.
pub fn offer(
    gate: &mut [u64; 13],
    keys: &mut [u64],
    changes: &mut [u64],
    buckets: &mut [u64],
    links: &mut [u64],
    watch: &mut [u64],
    pat_slots: &mut [u32],
    pat_cells: &mut [u8],
    input: u32,
    pid: u32,
    section: &[u8],
    failure: &mut [u64; 3],
) -> u8
    ensures { left result gate.new keys.new changes.new buckets.new links.new (record_of watch.new pat_slots.new pat_cells.new) failure.new ≡ gate_offered gate.old keys.old changes.old buckets.old links.old (record_of watch.old pat_slots.old pat_cells.old) input pid section.now failure.old }
{
    let held = host_gate_words::read(gate);
    let from = host_words::inputs::number(input);
    let number = host_words::pids::number(pid);
    let offered = gate_pats_indexed::offer(
        held.gate,
        held.counters,
        keys,
        changes,
        buckets,
        links,
        watch,
        pat_slots,
        pat_cells,
        from,
        number,
        section,
    );
    host_gate_words::write_offered(gate, failure, offered)
}
