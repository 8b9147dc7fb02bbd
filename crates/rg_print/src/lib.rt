//! The canonical text of a program (docs/language.md, "Canonical text"). `text` gives exactly the
//! bytes that `canon` of `rg_tree/specs/Canonical` says of the program's tree, or no memory was
//! found. The law `canon_parses_back`: the canonical text of a tree that some source spells is cut
//! and parsed into that tree, up to lines, and is its own canonical text. All else in the crate is
//! private.
#![tactic(auto)]

mod calls;
mod classes;
mod expressions;
mod laws;
mod lines;
mod names;
mod statements;
mod whole;
mod words;

pub use laws::canon_parses_back;
pub use whole::text;
