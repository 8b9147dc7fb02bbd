//! How a body ends (docs/architecture.md, "Modules").

/// What stands behind the block of a body.
#[derive(Clone, Copy)]
pub enum Ending {
    /// of main: `mark`, `end 0`, `halt`
    Main,
    /// of a method without a result: `mark`, `retv`
    Plain,
    /// of one with a result: nothing, since the block ends by a `return`
    Giving,
}
