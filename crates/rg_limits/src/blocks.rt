//! The names of blocks, counted down, and whether their statements are fine (docs/language.md,
//! "Limits"). Each function answers how many names are left, and nothing where there are more than
//! that, where a statement has too many signs or a number that is too small, or where more brackets
//! than may be are open in the text. A block in a statement takes a bracket, so blocks are followed
//! no deeper than there are.

ghost use Rattle.std.specs.Prelude.{◌≤◌, ◌<◌, suc, ⊤, length, IfSome};
ghost use Rattle.rg_tree.specs.Rows.RowTrees.{block_of, else_over, stmt_at};
ghost use Rattle.rg_tree.specs.Rows.RowsExist.{IsBlockIn};
ghost use Rattle.rg_rules.specs.Names.{block_names, else_names, stmt_names};
ghost use Rattle.rg_limits.specs.Each.{HoldsBehind, HoldsInBlock};
ghost use Rattle.rg_limits.specs.Opens.{block_opens, else_opens};
ghost use Rattle.rg_limits.specs.Inner.Counting.{Leaves};
ghost use Rattle.rg_limits.specs.Inner.Fine.{stmt_opens, IsFine, IsStmtFine};

use crate::statements::left_by;
use rg_tree::{Program, Span, StmtKind};

// What is left behind one name.
fn one_less(left: usize) -> Option<usize>
    ensures { Leaves left 1 ⊤ result }
{
    if left == 0 {
        return None;
    }
    Some(left - 1)
}

/// The names left behind a statement in which so many brackets may be open.
#[cycle(statement)]
fn left_in_stmt(program: &Program, n: u32, room: usize, left: usize) -> Option<usize>
    requires { n < length program.now.stmts }
    ensures { let s = stmt_at program.now n in
        Leaves left (stmt_names s) (IsStmtFine s × (stmt_opens s ≤ room)) result }
{
    let Some(_) = left_by(program, n, room) else {
        return None;
    };
    match program.stmt(n).kind {
        StmtKind::Let { .. } => one_less(left),
        StmtKind::If { yes, no, .. } => {
            let Some(rest) = left_in_braces(program, yes, room, left) else {
                return None;
            };
            left_in_else(program, no, room, rest)
        }
        StmtKind::While { body, .. } => left_in_braces(program, body, room, left),
        StmtKind::Enter { body, .. } => {
            let Some(rest) = one_less(left) else {
                return None;
            };
            left_in_braces(program, body, room, rest)
        }
        StmtKind::Set { .. } | StmtKind::SetAt { .. } | StmtKind::Call(_) => Some(left),
        StmtKind::Swap { .. } | StmtKind::Print(_) => Some(left),
        StmtKind::Collect | StmtKind::Return(_) => Some(left),
    }
}

/// The names left behind what stands behind the first block of an `if`.
#[cycle(statement)]
fn left_in_else(program: &Program, no: Option<Span>, room: usize, left: usize) -> Option<usize>
    requires { IfSome no (IsBlockIn program.now) }
    ensures { let o = else_over program.now (stmt_at program.now) no in
        Leaves left (else_names o) (HoldsBehind IsFine o × (else_opens o ≤ room)) result }
{
    match no {
        None => Some(left),
        Some(block) => left_in_braces(program, block, room, left),
    }
}

/// The names left behind a block with its braces.
#[cycle(statement)]
pub fn left_in_braces(program: &Program, block: Span, room: usize, left: usize) -> Option<usize>
    requires { IsBlockIn program.now block }
    ensures { let b = block_of program.now block in
        Leaves left (block_names b) (HoldsInBlock IsFine b × (suc (block_opens b) ≤ room)) result }
{
    if room == 0 {
        return None;
    }
    let mut rest = left;
    for n in program.order(block) {
        let Some(behind) = left_in_stmt(program, *n, room - 1, rest) else {
            return None;
        };
        rest = behind;
    }
    Some(rest)
}
