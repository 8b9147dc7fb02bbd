//! A module: the code of a program with what a reader must know of its classes and methods, and
//! its bytes (docs/architecture.md, "Modules"). `Module` shows the manager, the classes (`Shape`),
//! the heads of the methods (`Head`), the code and a map for each instruction (`specs/Parts`).
//! `encode` gives exactly the bytes of `spelling` in `specs/Spelling`, or no memory was found; it
//! wants a module that some bytes spell (`IsSpelt`). `decode` gives the module that the bytes
//! spell, or `E91` where they spell none (clause `spelt`); where they spell one, it gives no
//! refusal but `Memory` (clause `again`). The law `at_most_one_module`: bytes spell at most one
//! module. The bytes of classes, heads and instructions are those of `rg_spell`. All else in the
//! crate is private.
#![tactic(auto)]

mod follows;
mod laws;
mod parts;
mod rows;
mod whole;

pub use laws::at_most_one_module;
pub use parts::Module;
pub use rg_spell::{Head, Shape, Tys};
pub use whole::{decode, encode};
