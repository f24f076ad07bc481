// A section is kept (docs/RULES.md, "Collectors").
#![tactic(auto)]

ghost use Rattle.std.specs.Prelude.{◌≡◌, ◌*◌, length};
ghost use Rattle.std.proofs.Math.Seq.{paste};
ghost use Rattle.cells.specs.Cells.{slot_word};
ghost use Rattle.rows.specs.Rows.{kept_heads};
ghost use Rattle.segments.specs.Segments.{kept_section};
ghost use Rattle.eit_keep.specs.Kept.{CellOk};

use eit_plan::Keeping;

// The section's row, slot, segment and cell are written.
pub fn keep(
    size: usize,
    heads: &mut [u64],
    slots: &mut [u32],
    cells: &mut [u8],
    bytes: &[u8],
    k: Keeping,
)
    requires { CellOk size heads.old slots.old cells.old bytes.now k }
    ensures heads_after { heads.new ≡ kept_heads k.room k.arrival.entry heads.old }
    ensures slots_after { slots.new ≡ kept_section k.room k.arrival.entry k.arrival.segment (slot_word (length bytes.now) k.cell) slots.old }
    ensures cells_after { cells.new ≡ paste cells.old (k.cell * size) bytes.now (length bytes.now) }
{
    let a = k.arrival;
    let w = cells::slot_word(bytes.len(), k.cell);
    rows::keep_head(heads, k.room, a.entry);
    segments::keep_section(slots, k.room, a.entry, a.segment, w);
    cells::keep(cells, k.cell * size, bytes);
}
