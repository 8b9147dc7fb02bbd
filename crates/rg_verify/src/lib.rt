//! The programs that raise a module (docs/architecture.md, "Modules"). As laws: each of them is
//! told by the module, but for lines that no mark has, and so any two of them are alike, and where
//! there is one, the program that is told is one (`specs/Told`); no name in one has a bracket
//! (`specs/Bare`). `verify` answers one exactly where there is one, and else `E92`
//! (`specs/Verdict`), or want of memory.
#![tactic(auto)]

mod laws;
mod whole;

pub use laws::{raised_alike, raised_are_bare, raised_are_told, told_raises_if_any};
pub use rg_build::build;
pub use whole::verify;
