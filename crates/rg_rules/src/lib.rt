//! The rules of the language as definitions, and the tables of the capabilities as calls
//! (docs/language.md).
#![tactic(auto)]

mod capabilities;

pub use capabilities::{adapt, below, pause};
