//! What a call is asked, and how it ends (docs/language.md, "The command line", "Statuses"). The words
//! of the command line are read by `command` as a `Task`, which tells the command of
//! `specs/Commands`; `shape` says whether they are one. `Status` is how a call ends, with its number
//! and its text (`specs/Statuses`).
#![tactic(auto)]

mod limits;
mod status;
mod words;

pub use limits::{MODULE_BYTES, MOST_COWN, MOST_EVERY, MOST_NUMBERS, USUAL_EVERY};
pub use status::{Status, trap_words};
pub use words::{Request, RunOptions, Task, command, shape};
