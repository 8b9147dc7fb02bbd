//! The module of an accepted program (docs/architecture.md, "Modules"). `build` takes a program and
//! its code and gives exactly the module of `specs/ModuleOf`, or no memory was found; `encode` of
//! `rg_module` takes it (`IsSpelt`), and `packed` gives its bytes. Each mark has the declared types
//! of the variables in front of what it begins (`specs/Maps`). More instructions or methods than
//! have a count of 32 bits count as want of memory. All else in the crate is private.
#![tactic(auto)]

mod bodies;
mod classes;
mod copies;
mod heads;
mod laws;
mod laying;
mod operands;
mod slots;
mod types;
mod walk;
mod whole;

pub use laws::{code_follows, each_mark_has_a_map, maps_are_of_environments};
pub use whole::{build, packed};
