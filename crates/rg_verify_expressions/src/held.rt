//! A stack of trees, as rows of a program, with what waits among them
//! (docs/architecture.md, "Modules").

use crate::part::Junction;
use rg_tree::Path;

/// What stands on the stack.
#[derive(Drop)]
pub(crate) enum Held {
    /// a path: its slot, and the names of its fields
    Path { slot: u32, fields: Vec<u32> },
    /// a tree, by its row
    Tree { row: u32 },
    /// a path that was tested for nil
    Checked { path: Path },
    /// a place in an array, whose index was tested: the path to the array, and the index
    Indexed { path: Path, index: u32 },
    /// the left operand of a junction
    Waits { wait: Wait },
}

/// The left operand of a junction, by its row, and the address where the right one ends.
#[derive(Clone, Copy)]
pub(crate) struct Wait {
    pub junction: Junction,
    pub left: u32,
    pub to: usize,
}
