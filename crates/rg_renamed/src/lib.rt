//! The program that an accepted program is with numbers for names (docs/architecture.md,
//! "Modules"), as a definition: `renamed` of `specs/Renamed`. The laws: it has numbers for names,
//! it is accepted, and its module is the same, so it raises the module, within the limits. No call
//! renames a program.
#![tactic(auto)]

mod laws;

pub use laws::{
    modules_are_raised, renamed_is_accepted, renamed_is_numbered, renamed_is_within_limits,
    same_module,
};
