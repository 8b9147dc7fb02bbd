//! What holds of each plan that is read, as the contract of a function that does nothing
//! (docs/architecture.md, "Plans").

ghost use Rattle.rg_plan.specs.Laws.{PlansAreGood};

/// A plan that is read is for a bare main; its cowns are of ordinary classes; its behaviours run
/// methods `def mut m() { .. }` over different cowns, one for each `iso` field, of its class.
pub fn plans_are_good()
    ensures { PlansAreGood }
{}
