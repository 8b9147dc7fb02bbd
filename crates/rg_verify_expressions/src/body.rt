//! The body whose code is raised (docs/architecture.md, "Modules").

use std::alloc::Global;

/// What stays along a body.
#[derive(Clone, Copy)]
pub struct Body {
    /// where memory comes from
    pub alloc: Global,
    /// whether the body is that of a method
    pub in_method: bool,
}
