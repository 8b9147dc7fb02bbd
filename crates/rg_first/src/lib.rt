//! The object of a behaviour in each state of its run (docs/architecture.md, "How a behaviour
//! begins"). The functions are laws: each step keeps the object of a behaviour as the first one of
//! the store, in region 0, with its class and as many values (`first_stays`), so each state of each
//! run of a behaviour fits the program and has its object there (`runs_go_on`, `first_of_runs`).
#![tactic(auto)]

mod laws;

pub use laws::{first_of_runs, first_stays, runs_go_on};
