//! What a command's files mean, and what reads them (docs/promises.md, "The headline"). `Sources`
//! of `specs/Sources` has the bytes of a command's files, and `MeansFrom` says what they mean: that
//! they are too long, have a fault, spell a program, or spell one with a plan for it and contents of
//! its images. `program_from` reads the program of a file or generates it, `module_in` raises the
//! one of a module, and `planned_in` reads a program with the plan of another file and its images.
//! What each brings, or why it brings nothing, is `specs/Brings`.
#![tactic(auto)]

mod asked;
mod module;
mod planned;
mod source;

pub use asked::program_from;
pub use module::module_in;
pub use planned::{Planned, planned_in};
