//! The bodies of a program, raised from the code of its module (docs/architecture.md, "Modules").
//! `raise_bodies` adds the blocks of main and of all methods to a program, exactly as `bodies_told`
//! of `specs/Bodies` has them: main's body first, those of the methods behind it in order of their
//! numbers, and nothing else; or it says that no bodies have that code. The laws say what is told
//! by the code alone (`specs/Standing`): the bodies that stand there, if they are no deeper than
//! may be, and no others (`bodies_are_told`, `standing_bodies_are_told`, `bodies_stand_once`). All
//! else is private.
#![tactic(auto)]

mod bodies;
mod ending;
mod ends;
mod laws;
mod rows;

pub use bodies::raise_bodies;
pub use ending::Ending;
pub use laws::{bodies_are_told, bodies_stand_once, standing_bodies_are_told};
pub use rows::BodyRows;
