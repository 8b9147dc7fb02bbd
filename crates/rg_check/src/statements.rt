//! The statements of a body (docs/language.md, "Judgements").

ghost use Rattle.std.specs.Prelude.{◌≡◌, ℕ, ◌+◌, ◌<◌, ◌≤◌, List, All, length, IfSome};
ghost use Rattle.rg_base.specs.declared.limits.TheConstants.{BODY_NAMES};
ghost use Rattle.rg_tree.specs.Tree.{Class, Stmt};
ghost use Rattle.rg_tree.specs.Rows.Tables.{Tables};
ghost use Rattle.rg_tree.specs.Rows.RowTrees.{block_over, classes_of, kind_over, stmt_at};
ghost use Rattle.rg_rules.specs.Names.{block_names};
ghost use Rattle.rg_rules.specs.Statements as rules;
ghost use Rattle.rg_rules.specs.Bodies as bodies;
ghost use Rattle.rg_names.specs.TableOf.{IsTableOf};
ghost use Rattle.rg_names.specs.TreeAnswers.{IsKnown};
ghost use Rattle.rg_flow.specs.Scope.{env_of, IsScopeIn};
ghost use Rattle.rg_type.specs.Judging.{StmtJudgedAs};

use rg_base::{Stop, Ty};
use rg_flow::Env;
use rg_names::Classes;
use rg_tree::{Program, StmtKind};
use rg_type::judge_stmt;

/// The statements of a body in order, the last of which may give a result of that type: the
/// variables at its end, or the first fault.
pub fn judge_block(
    mut env: Env,
    program: &Program,
    classes: &Classes,
    result_type: Option<Ty>,
    these: &[u32],
) -> Result<Env, Stop>
    requires table { IsTableOf program.now classes.now }
    requires these { All (λ k. k < length program.now.stmts) these.now }
    requires scope { IsScopeIn program.now env }
    requires known { IfSome result_type (IsKnown (classes_of program.now)) }
    requires room { length env.slots + block_names (block_over (stmt_at program.now) these.now)
        ≤ BODY_NAMES }
    ensures { StmtJudgedAs program.now (rules.judge_block (classes_of program.now) result_type
        (env_of program.now env) (block_over (stmt_at program.now) these.now)) result }
{
    let mut rest = these;
    while let [first, others @ ..] = rest {
        let last = last_of(result_type, others);
        env = judge_stmt(env, program, classes, *first, last)?;
        rest = others;
    }
    Ok(env)
}

// The result that a statement may give in front of others.
fn last_of(result_type: Option<Ty>, others: &[u32]) -> Option<Ty>
    ensures last { (at : ℕ → Stmt) → result ≡ rules.last_of result_type (block_over at others.now) }
    ensures known { (classes : List Class) → IfSome result_type (IsKnown classes)
        → IfSome result (IsKnown classes) }
{
    match others {
        [] => result_type,
        [_, ..] => None,
    }
}

/// Whether these statements end in `return`.
pub fn ends_in_return(program: &Program, these: &[u32]) -> bool
    requires { All (λ k. k < length program.now.stmts) these.now }
    ensures { result ≡ bodies.ends_in_return (block_over (stmt_at program.now) these.now) }
{
    match these {
        [] => false,
        [.., last] => is_return(program.stmt(*last).kind),
    }
}

// Whether a statement is a `return`.
fn is_return(kind: StmtKind) -> bool
    ensures { (t : Tables) (at : ℕ → Stmt) → result ≡ bodies.is_return (kind_over t at kind) }
{
    match kind {
        StmtKind::Let { .. } => false,
        StmtKind::Set { .. } => false,
        StmtKind::SetAt { .. } => false,
        StmtKind::Call(_) => false,
        StmtKind::Swap { .. } => false,
        StmtKind::If { .. } => false,
        StmtKind::While { .. } => false,
        StmtKind::Enter { .. } => false,
        StmtKind::Print(_) => false,
        StmtKind::Collect => false,
        StmtKind::Return(_) => true,
    }
}
