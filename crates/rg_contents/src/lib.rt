//! What holds of contents behind every schedule (docs/architecture.md, "Schedules"). The functions
//! are laws: what a cown has at rest is a content that a field of its class may own
//! (`contents_may_be_owned`), so each behaviour may begin on what its cowns have
//! (`beginning_is_allowed`), and the state of each run fits the program and has the behaviour's
//! object as its first one (`runs_are_of_behaviours`).
#![tactic(auto)]

mod laws;

pub use laws::{beginning_is_allowed, contents_may_be_owned, runs_are_of_behaviours};
