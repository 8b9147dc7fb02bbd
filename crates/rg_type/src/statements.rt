//! Statements (docs/language.md, "Judgements").

mod assign;
mod declare;
mod enter;
mod simple;
mod swap;

ghost use Rattle.std.specs.Prelude.{◌≡◌, ◌+◌, ◌<◌, ◌≤◌, suc, length, option_map, IfOk, IfSome};
ghost use Rattle.std.specs.Prelude.{None, OnOk};
ghost use Rattle.rg_base.specs.declared.limits.TheConstants.{BODY_NAMES};
ghost use Rattle.rg_tree.specs.Tree as forms;
ghost use Rattle.rg_tree.specs.Rows.Tables.{name_at};
ghost use Rattle.rg_tree.specs.Rows.RowTrees.{block_of, else_over, expr_at, path_of, stmt_at};
ghost use Rattle.rg_tree.specs.Rows.RowTrees.{program_of};
ghost use Rattle.rg_tree.specs.Rows.RowsExist.{IsBlockIn, IsExprNumber, IsNameIn, IsPathIn};
ghost use Rattle.rg_rules.specs.Names.{block_names, else_names, stmt_names};
ghost use Rattle.rg_rules.specs.Statements as rules;
ghost use Rattle.rg_names.specs.TableOf.{IsTableOf};
ghost use Rattle.rg_names.specs.TreeAnswers.{IsKnown};
ghost use Rattle.rg_flow.specs.Scope.{env_of, IsScopeIn};
ghost use Rattle.rg_flow.specs.States.{IsReadable};
ghost use Rattle.rg_type.specs.Judging.{StmtJudgedAs};
ghost use Rattle.rg_type.specs.Inner.Changing.{LeavesAs};

use crate::faults::at_line;
use assign::{assign, assign_element};
use declare::declare;
use enter::{Entrance, enter, given, leave};
use rg_base::{Code, Stop, Ty};
use rg_expressions::fault;
use rg_flow::Env;
use rg_names::{Book, Classes};
use rg_tree::{Program, Span, StmtKind};
use simple::{call_alone, print, return_, tested};
use swap::swap;

/// The variables behind a statement, or its first fault. `last` is the type of the result where the
/// statement is the last one of a body with a result.
pub fn judge_stmt(
    env: Env,
    program: &Program,
    classes: &Classes,
    s: u32,
    last: Option<Ty>,
) -> Result<Env, Stop>
    requires table { IsTableOf program.now classes.now }
    requires statement { s < length program.now.stmts }
    requires scope { IsScopeIn program.now env }
    requires last { IfSome last (IsKnown (program_of program.now).classes) }
    requires room { length env.slots + stmt_names (stmt_at program.now s) ≤ BODY_NAMES }
    ensures judged { let t = program.now in
        StmtJudgedAs t
        (rules.judge_stmt (program_of t).classes last (env_of t env) (stmt_at t s)) result }
    ensures scope { IfOk result (IsScopeIn program.now) }
    ensures room { IfOk result (λ out.
        length out.slots ≤ length env.slots + stmt_names (stmt_at program.now s)) }
{
    let book = Book::new(program, classes);
    let mut env = env;
    statement(&mut env, &book, s, last)?;
    Ok(env)
}

// A statement.
#[cycle(statement)]
fn statement(env: &mut Env, book: &Book, s: u32, last: Option<Ty>) -> Result<(), Stop>
    requires statement { s < length book.now.program.stmts }
    requires scope { IsReadable book.now.program env.old }
    requires last { IfSome last (IsKnown (program_of book.now.program).classes) }
    requires room { length env.old.slots + stmt_names (stmt_at book.now.program s) ≤ BODY_NAMES }
    ensures judged { let t = book.now.program in
        LeavesAs (rules.judge_stmt (program_of t).classes last (env_of t env.old) (stmt_at t s))
        (env_of t env.new) result }
    ensures scope { OnOk result (IsReadable book.now.program env.new) }
{
    let row = book.stmt(s);
    let line = row.line;
    match row.kind {
        StmtKind::Let { name, ty, right } => declare(env, book, name, ty, right, line),
        StmtKind::Set { path, right } => at_line(line, assign(env, book, path, right)),
        StmtKind::SetAt { path, index, right } => {
            at_line(line, assign_element(env, book, path, index, right))
        },
        StmtKind::Call(call) => at_line(line, call_alone(env, book, call)),
        StmtKind::Swap { name, path } => at_line(line, swap(env, book, name, path)),
        StmtKind::If { test, yes, no } => branch(env, book, test, yes, no, line),
        StmtKind::While { test, body } => while_(env, book, test, body, line),
        StmtKind::Enter {
            path,
            name,
            body,
            giving,
        } => {
            let entrance = Entrance { path, name, giving };
            window(env, book, entrance, body, line)
        },
        StmtKind::Print(e) => at_line(line, print(env, book, e)),
        StmtKind::Collect => Ok(()),
        StmtKind::Return(e) => at_line(line, return_(env, book, e, last)),
    }
}

// `if e { .. }` and `if e { .. } else { .. }`: both blocks begin in the same states.
#[cycle(statement)]
fn branch(
    env: &mut Env,
    book: &Book,
    e: u32,
    yes: Span,
    no: Option<Span>,
    line: u64,
) -> Result<(), Stop>
    requires expression { IsExprNumber book.now.program e }
    requires yes { IsBlockIn book.now.program yes }
    requires no { IfSome no (IsBlockIn book.now.program) }
    requires scope { IsReadable book.now.program env.old }
    requires room { let t = book.now.program in length env.old.slots
        + (block_names (block_of t yes) + else_names (else_over t (stmt_at t) no)) ≤ BODY_NAMES }
    ensures judged { let t = book.now.program in
        LeavesAs (rules.judge_kind (program_of t).classes None line (env_of t env.old)
        (forms.branch (expr_at t e) (block_of t yes) (else_over t (stmt_at t) no)))
        (env_of t env.new) result }
    ensures scope { OnOk result (IsReadable book.now.program env.new) }
{
    tested(env, book, e, line)?;
    let front = env.save();
    block(env, book, yes)?;
    env.close(front.depth, front.len);
    let first = env.save();
    env.restore(front.flow);
    else_block(env, book, no)?;
    env.close(front.depth, front.len);
    env.join(first.flow);
    Ok(())
}

// What stands behind the first block of an `if`.
#[cycle(statement)]
fn else_block(env: &mut Env, book: &Book, no: Option<Span>) -> Result<(), Stop>
    requires no { IfSome no (IsBlockIn book.now.program) }
    requires scope { IsReadable book.now.program env.old }
    requires room { let t = book.now.program in
        length env.old.slots + else_names (else_over t (stmt_at t) no) ≤ BODY_NAMES }
    ensures judged { let t = book.now.program in
        LeavesAs
        (rules.judge_else (program_of t).classes (env_of t env.old) (else_over t (stmt_at t) no))
        (env_of t env.new) result }
    ensures scope { OnOk result (IsReadable book.now.program env.new) }
{
    match no {
        None => Ok(()),
        Some(span) => block(env, book, span),
    }
}

// `while e { .. }`: what is ready at its head is ready at the end of its body.
#[cycle(statement)]
fn while_(env: &mut Env, book: &Book, e: u32, body: Span, line: u64) -> Result<(), Stop>
    requires expression { IsExprNumber book.now.program e }
    requires body { IsBlockIn book.now.program body }
    requires scope { IsReadable book.now.program env.old }
    requires room { let t = book.now.program in
        length env.old.slots + block_names (block_of t body) ≤ BODY_NAMES }
    ensures judged { let t = book.now.program in
        LeavesAs (rules.judge_kind (program_of t).classes None line (env_of t env.old)
        (forms.while (expr_at t e) (block_of t body))) (env_of t env.new) result }
    ensures scope { OnOk result (IsReadable book.now.program env.new) }
{
    let head = env.save();
    tested(env, book, e, line)?;
    block(env, book, body)?;
    env.close(head.depth, head.len);
    if !env.covers(&head.flow) {
        return Err(fault(Code::Loop, line));
    }
    env.restore(head.flow);
    Ok(())
}

// `enter q as z { .. }` and `enter q as z { .. } giving w;`
#[cycle(statement)]
fn window(env: &mut Env, book: &Book, entrance: Entrance, body: Span, line: u64) -> Result<(), Stop>
    requires path { IsPathIn book.now.program entrance.path }
    requires name { IsNameIn book.now.program entrance.name }
    requires giving { IfSome entrance.giving (IsNameIn book.now.program) }
    requires body { IsBlockIn book.now.program body }
    requires scope { IsReadable book.now.program env.old }
    requires room { let t = book.now.program in
        length env.old.slots + suc (block_names (block_of t body)) ≤ BODY_NAMES }
    ensures judged { let t = book.now.program in
        LeavesAs (rules.judge_kind (program_of t).classes None line (env_of t env.old)
        (forms.enter (path_of t entrance.path) (name_at t entrance.name) (block_of t body)
        (option_map (name_at t) entrance.giving)))
        (env_of t env.new) result }
    ensures scope { OnOk result (IsReadable book.now.program env.new) }
{
    let outside = env.save();
    enter(env, book, entrance.path, entrance.name, line)?;
    block(env, book, body)?;
    given(env, book, entrance, line)?;
    env.close(outside.depth, outside.len);
    leave(env, book, entrance.path);
    Ok(())
}

// The statements of a block. Its own variables are still there at its end.
#[cycle(statement)]
fn block(env: &mut Env, book: &Book, span: Span) -> Result<(), Stop>
    requires span { IsBlockIn book.now.program span }
    requires scope { IsReadable book.now.program env.old }
    requires room { let t = book.now.program in
        length env.old.slots + block_names (block_of t span) ≤ BODY_NAMES }
    ensures judged { let t = book.now.program in
        LeavesAs
        (rules.judge_block (program_of t).classes None (env_of t env.old) (block_of t span))
        (env_of t env.new) result }
    ensures scope { OnOk result (IsReadable book.now.program env.new) }
{
    for s in book.order(span) {
        statement(env, book, *s, None)?;
    }
    Ok(())
}
