//! The lines of a report: a collection, the end of a run, and the end of `bulk`, each with the
//! bytes that `rg_base/specs/Report` gives (docs/language.md, "Report").
#![tactic(auto)]

mod lines;

pub use lines::{bulk_line, end_line, line};
