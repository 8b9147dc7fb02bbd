//! The signs, brackets and numbers of a statement, those of the statements in its blocks aside
//! (docs/language.md, "Limits").

ghost use Rattle.std.specs.Prelude.{◌≤◌, ◌<◌, length};
ghost use Rattle.rg_base.specs.declared.limits.TheConstants.{STATEMENT_SIGNS};
ghost use Rattle.rg_tree.specs.Rows.RowTrees.{stmt_at};
ghost use Rattle.rg_limits.specs.Inner.Counting.{Leaves};
ghost use Rattle.rg_limits.specs.Inner.Fine.{own_opens, own_signs, IsOwnSmall};

use crate::expressions::{left_behind, left_behind_args, left_behind_right, left_in_brackets};
use rg_base::STATEMENT_SIGNS;
use rg_tree::{Program, StmtKind};

/// The signs that a statement leaves of those that it may have, or nothing where it has more, where
/// more brackets than may be are open in its text, or where a number is too small.
pub fn left_by(program: &Program, n: u32, room: usize) -> Option<usize>
    requires { n < length program.now.stmts }
    ensures { let s = stmt_at program.now n in
        Leaves STATEMENT_SIGNS (own_signs s) (IsOwnSmall s × (own_opens s ≤ room)) result }
{
    match program.stmt(n).kind {
        StmtKind::Let { right, .. } | StmtKind::Set { right, .. } => {
            left_behind_right(program, right, room, STATEMENT_SIGNS)
        }
        StmtKind::SetAt { index, right, .. } => {
            let Some(rest) = left_in_brackets(program, index, room, STATEMENT_SIGNS) else {
                return None;
            };
            left_behind_right(program, right, room, rest)
        }
        StmtKind::Call(call) => left_behind_args(program, call.args, room, STATEMENT_SIGNS),
        StmtKind::If { test, .. } | StmtKind::While { test, .. } => {
            left_behind(program, test, room, STATEMENT_SIGNS)
        }
        StmtKind::Print(e) | StmtKind::Return(e) => left_behind(program, e, room, STATEMENT_SIGNS),
        StmtKind::Swap { .. } | StmtKind::Enter { .. } | StmtKind::Collect => Some(STATEMENT_SIGNS),
    }
}
