// Whether a set or a schedule in use has no PID (docs/RULES.md, "Layouts" and "Answers"): a call on such a store answers 41. Nothing lent is written.
#![tactic(auto)]

ghost use Rattle.std.specs.Prelude.{◌≡◌};
ghost use Rattle.eit_pids.specs.Rows.{any_without, HeadsFit};

use eit_state::Eit;

// Sets and schedules alike: one pass over the heads of each.
pub fn any_row_without_pid(eit: Eit, heads: &[u64], schedule_heads: &[u64]) -> bool
    requires { HeadsFit eit heads.now schedule_heads.now }
    ensures { result ≡ any_without eit heads.now schedule_heads.now }
{
    let sets = eit.sets;
    without_pid::any_without_pid(heads, sets.used)
        | without_pid::any_without_pid(schedule_heads, eit.schedules)
}
