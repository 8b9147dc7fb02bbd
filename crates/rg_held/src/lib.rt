//! The stack machine that frees, against the one over a store that only grows
//! (docs/architecture.md, "The machine that frees"). Each law is a function whose contract it is:
//! `needs_same` of what an instruction needs, `instructions_same` of what it does, from that
//! `walks_same` of a walk, from that `steps_same` of a step and `runs_same` of a run;
//! `free_given_same` of what a step's instructions need, `steps_free` of what a step frees,
//! `collections_same` of a collection between two steps.
#![tactic(auto)]

mod laws;

pub use laws::{
    collections_same, free_given_same, instructions_same, needs_same, runs_same, steps_free,
    steps_same, walks_same,
};
