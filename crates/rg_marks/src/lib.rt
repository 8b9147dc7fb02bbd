//! The lines of a program that marks of its code have are exactly those that `unlined` of
//! `rg_lines` keeps (docs/architecture.md, "Modules"): without the other ones code and module stay
//! the same, and the code tells each line that is kept.
#![tactic(auto)]

mod laws;

pub use laws::{code_tells_lines, same_code};
