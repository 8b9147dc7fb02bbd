//! That a behaviour's object stays held while its method runs (docs/architecture.md, "How a
//! behaviour begins"): a law on what a step of the stepper did (`OneStep`), as a function whose
//! contract it is. Region 0 is an arena, so no collection looks at it, and it has no owner, so
//! nothing takes it away.
#![tactic(auto)]

mod laws;

pub use laws::{first_lasts, first_lasts_along};
