//! The limit of schedules (docs/architecture.md, "Worlds").

/// The most numbers of a schedule.
pub const SCHEDULE: u64 = 1_000_000;
