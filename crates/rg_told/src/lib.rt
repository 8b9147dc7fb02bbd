//! What always holds of the program that a module tells (docs/architecture.md, "Modules"), as laws:
//! it has numbers for names, no more parts than it may, and no deeper blocks, since raising tests
//! the tables of the module and how deep blocks stand in one another. None of its names has a
//! bracket.
#![tactic(auto)]

mod laws;

pub use laws::{told_are_bare, told_are_bounded, told_are_numbered};
