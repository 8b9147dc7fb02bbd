//! Which contents of closed regions fit a program (docs/architecture.md, "Cargo"). `is_typed`
//! tests it, and `specs/Typed` says it.
#![tactic(auto)]

mod fields;
mod objects;

pub use objects::is_typed;
