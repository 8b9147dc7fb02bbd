//! That a step is determined, and so a run (docs/architecture.md, "The stepper"): laws on the
//! contract of a step, as functions whose contracts they are.
#![tactic(auto)]

mod laws;

pub use laws::{runs_once, steps_once};
