// Which sets of a collector are out: handed out, and nothing came for them since (docs/RULES.md, "Entries"). Only these are listed, so that half a table is never listed
// by the number of a row that was kept too long.
#![tactic(auto)]

ghost use Rattle.std.specs.Prelude.{◌≡◌, ◌*◌, ◌≤◌, length};
ghost use Rattle.handed.specs.Handed.{set_out_lem};

// Whether the set in a row in use was handed out, and nothing came for it since.
pub fn is_set_out(heads: &[u64], used: usize, row: usize) -> bool
    requires { used * 12 ≤ length heads.now }
    ensures { result ≡ set_out_lem heads.now used row }
{
    if row < used {
        return rows::mark(heads, row) != 0;
    }
    false
}
