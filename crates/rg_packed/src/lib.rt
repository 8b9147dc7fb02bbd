//! That `exec` of what `pack` writes does what `run` does (docs/architecture.md, "Modules"): laws,
//! as functions whose contracts they are. Of an accepted program that a source spells, the bytes of
//! its module spell that module, some program raises it, and whichever does has the same runs, as
//! far as a run tells.
#![tactic(auto)]

mod laws;

pub use laws::{one_module_one_run, packed_is_raised, packed_spells_module};
