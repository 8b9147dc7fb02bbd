//! Plans of cowns and behaviours (docs/architecture.md, "Plans"). `plan` reads one: it answers the
//! plan that the bytes say for an accepted program, else `E93 plan` at the first line that breaks a
//! rule, or want of memory (its clause is `ReadAs` with `plan_of` of `specs/Rules`). A `Plan` holds
//! its cowns and its behaviours in the order of their lines; what holds of each that is read is a
//! law (`plans_are_good`).
#![tactic(auto)]

mod behaviour;
mod classes;
mod cown;
mod file_name;
mod laws;
mod limits;
mod lines;
mod owned;
mod pieces;
mod planned;
mod reading;
mod stop;
mod targets;
mod whole;
mod words;

pub use behaviour::Behaviour;
pub use cown::{Cown, Start};
pub use file_name::FileName;
pub use laws::plans_are_good;
pub use limits::{BEHAVIOURS, COWNS, NUMBER_DIGITS};
pub use planned::Plan;
pub use whole::plan;
