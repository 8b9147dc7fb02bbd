//! The text of a world (docs/architecture.md, "Worlds"): of each behaviour how it stands, as
//! `behaviour 0 A.add done`, and then the values that it printed (`world_text` of `specs/Text`).
#![tactic(auto)]

mod words;
mod writing;

pub use writing::world_text;
