//! The judgements of expressions: what a path leads to, what an expression's type is, and which
//! variables it uses up (docs/language.md, "Judgements"). `judge_expr` takes the visible variables
//! and gives the next, or the first fault, exactly as the rules of `rg_rules` do of the same tree;
//! the other calls are those parts of it that statements need too.
#![tactic(auto)]

mod expressions;
mod faults;
mod judged;
mod operators;
mod paths;
mod types;

pub use expressions::{against, expression, judge_expr};
pub use faults::fault;
pub use judged::Judged;
pub use paths::{Followed, Looked, follow, may_write, seen, target, walk, walk_array};
pub use types::{is_iso, is_printable, is_same_type, iso_class, stays_at_depth};
