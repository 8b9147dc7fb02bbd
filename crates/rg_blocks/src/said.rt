//! What is raised of a window, as rows (docs/architecture.md, "Modules").

use rg_tree::Span;

/// The block of a window, and the slot that gives its bridge.
#[derive(Clone, Copy)]
pub(crate) struct WindowSaid {
    pub block: Span,
    pub given: Option<u32>,
}
