//! The queues of cowns (docs/architecture.md, "Plans"). `Queues` is told the cowns of one behaviour
//! after another, and tells of each which stand right in front of it: for each of its cowns the
//! last one before it that is over that cown, too.
#![tactic(auto)]

mod last;
mod queues;

pub use queues::Queues;
