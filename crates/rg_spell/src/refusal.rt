//! Why bytes aren't read (docs/architecture.md, "Modules").

/// Why no part was read.
#[derive(Clone, Copy, Debug)]
pub enum Refusal {
    /// no such part begins the bytes
    NotSpelt,
    /// no memory was found
    Memory,
}
