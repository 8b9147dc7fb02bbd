//! The stack machine as a program (docs/architecture.md, "The stepper"). `Stepper::begin` gives the
//! opening machine, and `step` makes a step of an accepted program that runs on it (`IsRunning`):
//! what it shows, frees, collects, asks and writes is the clause `step`, the record `OneStep` of
//! `specs/States`. `leap` makes many, none of which is the last, prints, asks for the input or may
//! collect, each a step as `step` makes it (clauses `leaps`, `chain`); it may make none.
//! `slide` chooses, before `begin`, that a collection of a traced region moves what it keeps.
#![tactic(auto)]

mod asks;
mod collecting;
mod kept;
mod leap;
mod local;
mod making;
mod outcome;
mod room;
mod step;
mod stepper;
mod stopped;
mod turn;
mod walk;

pub use rg_opening::Given;
pub use stepper::Stepper;
