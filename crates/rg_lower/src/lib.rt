//! The code of an accepted program (docs/language.md, "Instructions and lowering"). `lower` takes
//! an `Accepted` of `rg_check` and gives a `CodeList` of `rg_code`: it is exactly the code that the
//! definition has for the program's tree (`Lowers` in `rg_code/specs/Lowering`), or no memory was
//! found. What `Machine::run` of `rg_run` asks of its code is this clause. All else in the crate is
//! private, a file for each part of a tree.
#![tactic(auto)]

mod bodies;
mod calls;
mod classes;
mod counts;
mod expressions;
mod fields;
mod holders;
mod paths;
mod rights;
mod slots;
mod statements;
mod targets;
mod uses;
mod whole;
mod wholes;
mod windows;
mod writer;

pub use whole::lower;
