//! The machine that never frees, as a program (docs/language.md, "Steps"). `PlainMachine::begin`
//! takes an accepted program; `step` makes one step and `run` as many as are asked for. Its clauses
//! say that what is kept stands for the states of `rg_rules`, step by step (`Settles`, `RunIs`).
#![tactic(auto)]

mod counting;
mod line;
mod machine;
mod steps;

pub use line::put_value;
pub use machine::{CountedRun, PlainMachine};
