//! Pacers: what a caller hands in to say when an active region is collected
//! (docs/architecture.md, "Pacers"). Each counts how often it was asked and how often it said yes.
#![tactic(auto)]

mod doubling;
mod every_n;
mod listed;
mod never;
mod pacer;
mod tally;

pub use doubling::Doubling;
pub use every_n::EveryN;
pub use listed::Listed;
pub use never::Never;
pub use pacer::{Pacer, Pacers};
pub use tally::Tally;
