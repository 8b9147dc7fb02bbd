//! The bodies of programs with numbers in place of names (docs/architecture.md, "Modules"), as a
//! definition: `numbered_block` of `specs/Numbered`. The law: each body of an accepted program
//! whose names are those of a module (`specs/ModuleNames`) is its block with numbers, given its
//! names again, and these are found (`accepted_are_numbered`). No call numbers a program.
#![tactic(auto)]

mod laws;

pub use laws::accepted_are_numbered;
