//! Blocks of statements, raised from their code into rows (docs/architecture.md, "Modules").
#![tactic(auto)]

mod blocks;
mod ends;
mod parts;
mod said;
mod signs;
mod types;

pub use blocks::raise_block;
