//! A whole run: the stack machine on the code of an accepted program (docs/language.md, "Steps").
//! `Machine::run` makes at most n steps on a fresh machine: answer, text, state and steps are those
//! of the machine that never frees, whatever the pacers say (clause `run`, the record `WholeRun` of
//! `specs/Whole`). With a report, the notes take the line of each collection (clause `notes`).
//! `numbers`, `events`, `shown` and `is_owned` tell what stands on the machine.
#![tactic(auto)]

mod giving;
mod inside;
mod machine;
mod stepping;
mod task;
mod telling;

pub use machine::Machine;
pub use rg_base::Ended;
