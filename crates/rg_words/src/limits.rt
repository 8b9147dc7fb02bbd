//! The limits of what is read beside a source, and those of the words (docs/language.md, "Modules",
//! "Schedules", "The command line").

/// The most bytes that a module has which `exec` runs: 16 MiB.
pub const MODULE_BYTES: usize = 16_777_216;

/// The most numbers that a schedule has which `when` reads.
pub const MOST_NUMBERS: u64 = 1_000_000;

/// The greatest number of `--every`.
pub const MOST_EVERY: u64 = 1_000_000_000;

/// How often a pacer is asked before it says yes, where no option says so.
pub const USUAL_EVERY: u64 = 1_000;

/// The greatest number of `--keep`.
pub const MOST_COWN: u64 = 9_999;
