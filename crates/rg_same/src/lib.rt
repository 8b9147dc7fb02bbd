//! The module of a program has exactly the lines of marks (docs/architecture.md, "Modules"): it
//! stays the same without the lines that `unlined` of `rg_lines` takes away, and tells each other
//! one.
#![tactic(auto)]

mod laws;

pub use laws::{module_tells_lines, same_module};
