//! The stack machine over a store that only grows, and that each of its steps does what a step of
//! the machine that never frees does (docs/architecture.md, "The stack machine"). Each law is a
//! function whose contract it is: `opening_shows` and `step_shows`, and from these `run_shows`;
//! `steps_orderly` says that a step is refused only in front of what it changes,
//! `steps_ask` which steps ask for the input, `steps_due` which may collect, and `steps_given` that
//! no instruction lacks what a machine that frees needs of it.
#![tactic(auto)]

mod laws;

pub use laws::{
    opening_shows, run_shows, step_shows, steps_ask, steps_due, steps_given, steps_orderly,
};
