//! The tree of a program in flat tables; the grammar within its limits and the canonical text,
//! as definitions with their laws (docs/language.md).
#![tactic(auto)]

mod counts;
mod keyed;
mod laws;
mod names;
mod program;
mod rows;
mod table;

pub use counts::Counts;
pub use laws::{at_most_one_tree, spelt_is_not_stuck, stuck_once};
pub use program::Program;
pub use rows::{
    BinOp, CallRow, ClassRow, ExprRow, MemberRow, MethodRow, ParamRow, Path, Right, Span, StmtKind,
    StmtRow, TypeRow,
};
