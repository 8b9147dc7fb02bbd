//! Why code isn't raised (docs/architecture.md, "Modules").

/// Why nothing was raised.
#[derive(Clone, Copy)]
pub enum Refusal {
    /// nothing has this code
    NotRaised,
    /// no memory was found
    Memory,
}
