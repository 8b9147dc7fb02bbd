//! The numbers of an input, whatever the pieces of its source (docs/language.md, "Input numbers").
//! `Numbers::next` gives the next number exactly where the definition has one on the bytes left,
//! and `End` or `Input` exactly as it (clause `answers`), then for good (`stays`); `InputFault`
//! comes where the source's count of faults rose, and only there (`fault`, `quiet`). `more` is false
//! exactly where the definition is at the end, and takes nothing (`looks`). Both ask the source for
//! a piece only where what came before doesn't say what the next number is, and for none behind a
//! fault (`asks`).
#![tactic(auto)]

mod ahead;
mod bytes;
mod held;
mod number;
mod numbers;
mod refusal;
mod runs;

pub use numbers::Numbers;
pub use refusal::{InputFault, NumberRefusal};
