//! What each command answers (docs/promises.md, "The headline"). A `Setting` has the output, the
//! notes and the machine of a call, and its `answer` does what the words ask for: it has the program
//! of a file, alone or with a plan, a generated one, or one that is raised from a module
//! (`rg_sources`), and does with it what the command says, each in a file of its own. What that is, of
//! what its files mean, is `specs/Expected`; what was answered and left, by the status,
//! `specs/Settled`. `answers_are_one` is the law that a command answers one thing to its bytes.
#![tactic(auto)]

mod bulk;
mod check;
mod code;
mod commands;
mod ended;
mod exec;
mod format;
mod laws;
mod pack;
mod plain;
mod run;
mod setting;
mod when;

pub use laws::answers_are_one;
pub use setting::Setting;
