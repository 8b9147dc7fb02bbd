//! How a behaviour stands (docs/architecture.md, "Schedules").

use rg_base::Trap;

/// How a behaviour stands.
#[derive(Clone, Copy)]
pub enum Phase {
    /// It hasn't begun.
    Waiting,
    /// It has begun, and has not ended.
    Running,
    /// Its method has ended.
    Done,
    /// A step of it trapped, at a line of the source.
    Trap { kind: Trap, line: u64 },
}
