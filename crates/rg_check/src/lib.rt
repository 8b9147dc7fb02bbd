//! The checker (docs/language.md, "Acceptance"). `check` answers the program as an `Accepted`
//! exactly where the rules find no fault, else its first fault (clause `judged`), or want of
//! memory; it asks that no body has more than 256 names, which the law `spelt_has_few_names` says
//! of each tree that some source spells. An `Accepted` holds an accepted program alone, with its
//! class table (`program`, `classes`, `book`). `diagnostic_text` is the text of a fault.
#![tactic(auto)]

mod accepted;
mod classes;
mod diagnostics;
mod laws;
mod method;
mod statements;
mod whole;

pub use accepted::Accepted;
pub use diagnostics::{code_text, diagnostic_text};
pub use laws::spelt_has_few_names;
pub use whole::check;
