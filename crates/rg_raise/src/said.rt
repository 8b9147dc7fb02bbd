//! What is raised at an address, as rows (docs/architecture.md, "Modules").

use rg_base::Ty;
use rg_tree::{CallRow, Right, StmtKind};
use rg_verify_expressions::FrontRow;

/// A stretch of code: its first address, and the address behind it.
#[derive(Clone, Copy)]
pub struct Stretch {
    pub from: usize,
    pub end: usize,
}

/// Expressions, objects and places in order, by their rows, and the stretch of their code.
#[derive(Drop)]
pub struct Fronts {
    pub rows: Vec<FrontRow>,
    pub code: Stretch,
}

/// Expressions in order, by their rows, and the stretch of their code.
#[derive(Drop)]
pub(crate) struct Exprs {
    pub rows: Vec<u32>,
    pub code: Stretch,
}

/// A call, with the type of its result.
#[derive(Clone, Copy)]
pub(crate) struct CallSaid {
    pub row: CallRow,
    pub result: Option<Ty>,
}

/// A right side, and whether a pacer is asked.
#[derive(Clone, Copy)]
pub struct RightSaid {
    pub row: Right,
    pub paces: bool,
}

/// What a statement changes for those behind it.
#[derive(Clone, Copy)]
pub enum After {
    /// nothing
    Same,
    /// there is one more variable, of a type
    More { ty: Ty },
    /// there are none
    Last,
}

/// A statement, and what it changes.
#[derive(Clone, Copy)]
pub struct KindSaid {
    pub row: StmtKind,
    pub after: After,
}
