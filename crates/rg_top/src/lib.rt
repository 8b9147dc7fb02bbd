//! The top call (docs/promises.md, "The headline"). `reggio` goes from words, files and input to
//! output, notes and a `Status`, on a fresh `Machine`, with any pacers: what it writes and leaves
//! are the clauses `answered`, `untouched`, `cut_off`, `cut_at_input` and `notes`, and from which
//! cause each status comes are `expected` to `faults`. `rg_words` reads the words, and `rg_commands` does
//! what they ask for; here the status is told to the notes (`tell`). `each_runs` is the law that
//! what was answered to a module holds of each program that raises it, and `packed_runs_as` that
//! what `pack` writes of a program does to `exec` what the program does to `run`. `run_process` is
//! a whole process, `main`'s one call.
#![tactic(auto)]

mod laws;
mod notes;
mod process;
mod top;

pub use laws::{each_runs, limits_are, packed_runs_as};
pub use notes::tell;
pub use process::run_process;
pub use rg_commands::answers_are_one;
pub use rg_words::{MODULE_BYTES, Status, shape};
pub use top::reggio;
