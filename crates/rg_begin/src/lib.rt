//! The machine with which a behaviour begins (docs/architecture.md, "How a behaviour begins").
//! `begin` makes it: the object of the method, with the contents that its fields own, and the frame
//! of the method. It shows the state in which the behaviour begins (`ShowsOpening` of
//! `specs/Begun`).
#![tactic(auto)]

mod beginning;
mod contents;
mod first;

pub use beginning::begin;
