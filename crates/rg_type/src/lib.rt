//! The judgements: what an expression's type is, and which variables may be used behind a statement
//! (docs/language.md, "Judgements"). An `Env` holds the visible variables; `judge_expr` and
//! `judge_stmt` take one and give the next, or the first fault, exactly as the rules of `rg_rules`
//! do of the same tree. Those of expressions are `rg_expressions`'.
#![tactic(auto)]

mod faults;
mod rights;
mod statements;

pub use rg_expressions::{Judged, judge_expr};
pub use rg_flow::Env;
pub use statements::judge_stmt;
