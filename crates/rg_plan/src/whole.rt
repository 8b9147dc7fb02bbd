//! The plan of an accepted program (docs/architecture.md, "Plans").

ghost use Rattle.rg_tree.specs.Rows.RowTrees.{program_of};
ghost use Rattle.rg_plan.specs.Plans.{ReadAs};
ghost use Rattle.rg_plan.specs.Rules as rules;

use crate::planned::Plan;
use crate::reading::read_plan;
use rg_base::Stop;
use rg_check::Accepted;
use std::alloc::Global;

/// The plan that the bytes say for a program. Else `E93 plan`, at the first line that breaks a rule
/// of plans, counted from 1; at line 0 where the program has another main than `main arena { }`.
pub fn plan(alloc: Global, bytes: &[u8], accepted: &Accepted) -> Result<Plan, Stop>
    ensures { ReadAs (λ p. p) (rules.plan_of (program_of accepted.now.program) bytes.now) result }
{
    read_plan(alloc, bytes, &accepted.book())
}
