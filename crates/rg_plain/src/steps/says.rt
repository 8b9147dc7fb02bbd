//! What a statement says to the outside (docs/language.md, "Steps").

ghost use Rattle.std.specs.Prelude.{◌≡◌, false, ℕ};
ghost use Rattle.rg_tree.specs.Rows.RowTrees.{kind_over, right_of, stmt_at};
ghost use Rattle.rg_tree.specs.Rows.RowsExist.{IsKindIn};
ghost use Rattle.rg_tree.specs.Rows.Tables.{Tables};
ghost use Rattle.rg_rules.specs.Outside.Inputs.{asks, kind_asks};
ghost use Rattle.rg_plain.specs.Inner.Says.{SaysFits, SaysIs, asks_of, prints_of};
ghost use Rattle.rg_values.specs.Spots.{LeftFits, statement_of};
ghost use Rattle.rg_values.specs.Printing.{prints};

use rg_tree::{Right, StmtKind};
use rg_values::Left;

/// What a statement says to the outside.
#[derive(Clone, Copy)]
pub enum Says {
    /// `x = read`
    Reads(Left),
    /// `x = more`
    Asks(Left),
    /// `print e`
    Prints(u32),
    /// any other statement
    Nothing,
}

/// What a statement with such a right side says.
fn said_right(left: Left, right: Right) -> Says
    ensures is { (t : Tables) → SaysIs t (statement_of t left (right_of t right)) result }
    ensures asks { (t : Tables) → asks (right_of t right) ≡ asks_of result }
    ensures silent { prints_of result ≡ false }
    ensures fits { (t : Tables) → LeftFits t left → SaysFits t result }
{
    match right {
        Right::Read => Says::Reads(left),
        Right::More => Says::Asks(left),
        Right::Expr(_) => Says::Nothing,
        Right::New { .. } | Right::NewTmp { .. } | Right::NewIso { .. } => Says::Nothing,
        Right::Call(_) | Right::Freeze(_) | Right::Merge(_) => Says::Nothing,
    }
}

/// What a statement says.
pub(crate) fn said(kind: StmtKind) -> Says
    ensures is { (t : Tables) → SaysIs t (kind_over t (stmt_at t) kind) result }
    ensures asks { (t : Tables) → kind_asks (kind_over t (stmt_at t) kind) ≡ asks_of result }
    ensures prints { (t : Tables) → prints (kind_over t (stmt_at t) kind) ≡ prints_of result }
    ensures fits { (t : Tables) (n : ℕ) → IsKindIn t n kind → SaysFits t result }
{
    match kind {
        StmtKind::Let { name, ty, right } => said_right(Left::Let { name, ty }, right),
        StmtKind::Set { path, right } => said_right(Left::Set(path), right),
        StmtKind::SetAt { path, index, right } => said_right(Left::SetAt { path, index }, right),
        StmtKind::Print(e) => Says::Prints(e),
        StmtKind::If { .. } | StmtKind::While { .. } | StmtKind::Enter { .. } => Says::Nothing,
        StmtKind::Call(_) | StmtKind::Swap { .. } | StmtKind::Collect => Says::Nothing,
        StmtKind::Return(_) => Says::Nothing,
    }
}
