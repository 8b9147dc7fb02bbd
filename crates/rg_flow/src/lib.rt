//! The visible variables, each ready, gone or lent (docs/language.md, "Judgements"). `Env` has them
//! by their names: `push` and `add` give one more, ready, `find` the first of a name, and `mark`
//! puts it in another state; clauses `tree` say it of the tree's own environment. `Flow` is the
//! states of up to 256 variables in bit sets: each call is exact on all of them, and a refusal of
//! `take`, `lend` or `give` is the rules' code and changes nothing.
#![tactic(auto)]

mod env;
mod flow;
mod sets;

pub use env::{Env, Found, Saved, State};
pub use flow::Flow;
