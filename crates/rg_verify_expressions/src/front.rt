//! What code begins with, up to an instruction that no expression has
//! (docs/architecture.md, "Modules").

use rg_tree::Path;

/// What was raised, by its rows.
#[derive(Clone, Copy)]
pub enum FrontRow {
    /// an expression
    Expression { row: u32 },
    /// a path to an object, which is tested for nil: a field of it, an element or a method is meant
    Object { path: Path },
    /// a place in the array to which a path leads: the index is tested, too
    Place { path: Path, index: u32 },
}
