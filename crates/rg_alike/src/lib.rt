//! What a machine shows of a run of one program it shows of each that is the same but for the lines
//! that no mark has (docs/architecture.md, "Modules"), as laws: where a run of the one stands, one
//! of the other does, and the collections that it told are those of the other's steps.
#![tactic(auto)]

mod laws;

pub use laws::{stand_alike, stand_in_tables, tell_alike};
