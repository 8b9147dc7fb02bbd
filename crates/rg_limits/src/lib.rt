//! The programs that pass no limit of a source (docs/language.md, "Limits"), by their tree
//! (`IsWithinLimits` of `specs/Limits`). `is_within_limits` tells whether a program is one, in time
//! that is linear in the program, with no memory. The laws: the brackets that a tree has are those
//! of its canonical text (`opens_are_brackets`), and bound its blocks (`opens_bound_blocks`), so
//! that such a program has blocks no deeper than brackets may be, and few parts (`limits_bound`);
//! and the lines that no mark has make no difference (`limits_are_lineless`). All else in the crate
//! is private.
#![tactic(auto)]

mod blocks;
mod bodies;
mod expressions;
mod laws;
mod operands;
mod statements;
mod whole;

pub use laws::{limits_are_lineless, limits_bound, opens_are_brackets, opens_bound_blocks};
pub use whole::is_within_limits;
