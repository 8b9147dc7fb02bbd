//! Reads the tokens of a source (docs/language.md, "Grammar"). `parse` takes what `rg_lex::tokens`
//! cut and answers the `Program` whose tree they spell (`ok`), or the fault at which they are stuck
//! (`fault`), and then no tree is spelt (`none`). Only want of memory is left free. A `Reader` goes
//! over the tokens; each rule of the grammar above expressions is a function over it, in `rules`.
#![tactic(auto)]

mod rules;
mod starts;
mod whole;

pub use whole::parse;
