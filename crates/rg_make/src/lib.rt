//! The generated program (docs/language.md, "The generated program"): `program_of` gives the tree
//! of `specs/Generated`, which is accepted for every seed and size.
#![tactic(auto)]

mod builder;
mod classes;
mod main_block;
mod parts;
mod whole;

pub use whole::{MOST_SIZE, program_of};
