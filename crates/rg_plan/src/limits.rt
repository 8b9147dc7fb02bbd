//! The limits of a plan (docs/architecture.md, "Plans").

/// The most cowns of a plan.
pub const COWNS: usize = 256;

/// The most behaviours of a plan.
pub const BEHAVIOURS: usize = 4_096;

/// The most digits of a cown's number.
pub const NUMBER_DIGITS: usize = 4;
