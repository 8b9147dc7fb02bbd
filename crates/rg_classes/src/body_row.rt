//! Bodies of methods, as rows (docs/architecture.md, "Modules").

use rg_tree::Span;

/// The body of a method: its statements, and the line of the mark at its end, 0 where none stands
/// there.
#[derive(Clone, Copy)]
pub struct BodyRow {
    pub block: Span,
    pub line: u64,
}
