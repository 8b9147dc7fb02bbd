//! Reads the statements that hold no others (docs/language.md, "Grammar").

ghost use Rattle.std.specs.Prelude.{◌≡◌, ◌≢◌, ◌<◌, ◌≤◌, [], ◌∷◌, length, Some, IfOk, IfErr, OnOk};
ghost use Rattle.rg_tree.specs.Phrases.{the};
ghost use Rattle.rg_tree.specs.Phrases as p;
ghost use Rattle.rg_tree.specs.Table.{next};
ghost use Rattle.rg_reader.specs.Steps.{Halts};
ghost use Rattle.rg_parse.specs.declared.starts.StmtStart.{StmtStart};
ghost use Rattle.rg_parse.specs.Inner.Starts.{stmt_start};
ghost use Rattle.rg_parse.specs.Inner.Readings.{FoundKind, set_row};

use crate::rules::rights::right;
use rg_base::{Keyword, Kind, Sign};
use rg_reader::{Halt, Reader, Role};
use rg_tree::{Path, Right, StmtKind};

/// The row of an assignment to a variable or a field, or to an element.
fn set_row(path: Path, index: Option<u32>, right: Right) -> StmtKind
    ensures { result ≡ set_row path index right }
{
    match index {
        Some(index) => StmtKind::SetAt { path, index, right },
        None => StmtKind::Set { path, right },
    }
}

/// `let x: T = r;`
pub(crate) fn let_row(reader: &mut Reader<'_>) -> Result<StmtKind, Halt>
    requires { stmt_start (next reader.old.rest) ≡ StmtStart.Let }
    ensures ok { IfOk result (λ k. FoundKind reader.old k reader.new) }
    ensures shorter { OnOk result (length reader.new.rest < length reader.old.rest) }
    ensures fault { IfErr result (λ e. Halts (the p.Stmt ∷ []) reader.old e reader.new) }
{
    reader.take(Kind::Word(Keyword::Let))?;
    let name = reader.declare(Role::Local)?;
    reader.take(Kind::Mark(Sign::Colon))?;
    let ty = reader.ty()?;
    reader.take(Kind::Mark(Sign::Assign))?;
    let right = right(reader)?;
    reader.take(Kind::Mark(Sign::Semicolon))?;
    Ok(StmtKind::Let { name, ty, right })
}

/// `x = r;`, `q.f = r;` and `q[e] = r;`
pub(crate) fn assign_row(reader: &mut Reader<'_>) -> Result<StmtKind, Halt>
    requires { stmt_start (next reader.old.rest) ≡ StmtStart.Assign }
    ensures ok { IfOk result (λ k. FoundKind reader.old k reader.new) }
    ensures shorter { OnOk result (length reader.new.rest < length reader.old.rest) }
    ensures fault { IfErr result (λ e. Halts (the p.Stmt ∷ []) reader.old e reader.new) }
{
    let path = reader.path()?;
    let index = reader.index()?;
    reader.take(Kind::Mark(Sign::Assign))?;
    let right = right(reader)?;
    reader.take(Kind::Mark(Sign::Semicolon))?;
    Ok(set_row(path, index, right))
}

/// `call q.m(a, b);`
pub(crate) fn call_row(reader: &mut Reader<'_>) -> Result<StmtKind, Halt>
    requires { stmt_start (next reader.old.rest) ≡ StmtStart.Call }
    ensures ok { IfOk result (λ k. FoundKind reader.old k reader.new) }
    ensures shorter { OnOk result (length reader.new.rest < length reader.old.rest) }
    ensures fault { IfErr result (λ e. Halts (the p.Stmt ∷ []) reader.old e reader.new) }
{
    let call = reader.call()?;
    reader.take(Kind::Mark(Sign::Semicolon))?;
    Ok(StmtKind::Call(call))
}

/// `swap y, q.f;`
pub(crate) fn swap_row(reader: &mut Reader<'_>) -> Result<StmtKind, Halt>
    requires { stmt_start (next reader.old.rest) ≡ StmtStart.Swap }
    ensures ok { IfOk result (λ k. FoundKind reader.old k reader.new) }
    ensures shorter { OnOk result (length reader.new.rest < length reader.old.rest) }
    ensures fault { IfErr result (λ e. Halts (the p.Stmt ∷ []) reader.old e reader.new) }
{
    reader.take(Kind::Word(Keyword::Swap))?;
    let name = reader.name()?;
    reader.take(Kind::Mark(Sign::Comma))?;
    let path = reader.path()?;
    reader.take(Kind::Mark(Sign::Semicolon))?;
    Ok(StmtKind::Swap { name, path })
}

/// `print e;`
pub(crate) fn print_row(reader: &mut Reader<'_>) -> Result<StmtKind, Halt>
    requires { stmt_start (next reader.old.rest) ≡ StmtStart.Print }
    ensures ok { IfOk result (λ k. FoundKind reader.old k reader.new) }
    ensures shorter { OnOk result (length reader.new.rest < length reader.old.rest) }
    ensures fault { IfErr result (λ e. Halts (the p.Stmt ∷ []) reader.old e reader.new) }
{
    reader.take(Kind::Word(Keyword::Print))?;
    let expr = reader.expr()?;
    reader.take(Kind::Mark(Sign::Semicolon))?;
    Ok(StmtKind::Print(expr))
}

/// `collect;`
pub(crate) fn collect_row(reader: &mut Reader<'_>) -> Result<StmtKind, Halt>
    requires { stmt_start (next reader.old.rest) ≡ StmtStart.Collect }
    ensures ok { IfOk result (λ k. FoundKind reader.old k reader.new) }
    ensures shorter { OnOk result (length reader.new.rest < length reader.old.rest) }
    ensures fault { IfErr result (λ e. Halts (the p.Stmt ∷ []) reader.old e reader.new) }
{
    reader.take(Kind::Word(Keyword::Collect))?;
    reader.take(Kind::Mark(Sign::Semicolon))?;
    Ok(StmtKind::Collect)
}

/// `return e;`
pub(crate) fn return_row(reader: &mut Reader<'_>) -> Result<StmtKind, Halt>
    requires { stmt_start (next reader.old.rest) ≡ StmtStart.Return }
    ensures ok { IfOk result (λ k. FoundKind reader.old k reader.new) }
    ensures shorter { OnOk result (length reader.new.rest < length reader.old.rest) }
    ensures fault { IfErr result (λ e. Halts (the p.Stmt ∷ []) reader.old e reader.new) }
{
    reader.take(Kind::Word(Keyword::Return))?;
    let expr = reader.expr()?;
    reader.take(Kind::Mark(Sign::Semicolon))?;
    Ok(StmtKind::Return(expr))
}
