//! That what a source spells passes no limit of a source, by its tree (docs/language.md, "Limits"):
//! laws, as functions whose contracts they are. So a program that was parsed and accepted is one
//! that a module may tell of. Its names have no brackets, so the brackets of its canonical text are
//! those that its tree says (`opens_are_brackets` of `rg_limits`).
#![tactic(auto)]

mod laws;

pub use laws::{spelt_is_within_limits, spelt_opens_few};
