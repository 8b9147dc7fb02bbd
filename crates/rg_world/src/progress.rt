//! How a behaviour stands (docs/architecture.md, "Worlds").

use rg_base::{Trap, Vals};
use rg_step::Stepper;

/// How a behaviour stands, with the machine of one that is running.
#[derive(Drop)]
pub enum Standing {
    /// it hasn't begun
    Waiting,
    /// it has begun, and has not ended
    Running(Stepper),
    /// its method has ended
    Done,
    /// a step of it trapped, at a line of the source
    Trap { kind: Trap, line: u64 },
}

/// How a behaviour stands, what it printed, and how many of its steps were tried.
#[derive(Drop)]
pub struct Progress {
    pub standing: Standing,
    pub printed: Vals,
    pub turns: u64,
}
