//! Reads blocks and their statements (docs/language.md, "Grammar").

ghost use Rattle.std.specs.Prelude.{◌≡◌, ◌≢◌, ◌<◌, ◌≤◌, [], ◌∷◌, length, Some, IfOk, IfErr, OnOk};
ghost use Rattle.rg_tree.specs.Phrases.{the};
ghost use Rattle.rg_tree.specs.Phrases as p;
ghost use Rattle.rg_tree.specs.Table.{next};
ghost use Rattle.rg_reader.specs.Steps.{Halts};
ghost use Rattle.rg_parse.specs.Inner.Starts.{stmt_start};
ghost use Rattle.rg_parse.specs.Inner.Readings.{FoundKind, FoundStmt, FoundBlock, FoundStmts};
ghost use Rattle.rg_parse.specs.Inner.Readings.{FoundElse, FoundGiving};
ghost use Rattle.rg_tree.specs.Counts.{no_signs};

use crate::rules::statements::{
    assign_row, call_row, collect_row, let_row, print_row, return_row, swap_row,
};
use crate::starts::{StmtStart, stmt_start};
use rg_base::{Code, Keyword, Kind, Sign};
use rg_reader::{Halt, Reader, Role, keep};
use rg_tree::{Span, StmtKind, StmtRow};

/// `{ .. }`
#[cycle(stmt)]
pub(crate) fn block(reader: &mut Reader<'_>) -> Result<Span, Halt>
    ensures ok { IfOk result (λ s. FoundBlock reader.old s reader.new) }
    ensures shorter { OnOk result (length reader.new.rest < length reader.old.rest) }
    ensures fault { IfErr result (λ e. Halts (the p.Block ∷ []) reader.old e reader.new) }
{
    reader.take(Kind::Mark(Sign::OpenBrace))?;
    let body = stmts(reader)?;
    reader.take(Kind::Mark(Sign::CloseBrace))?;
    Ok(body)
}

/// Statements up to the end of a block.
#[cycle(stmt)]
fn stmts(reader: &mut Reader<'_>) -> Result<Span, Halt>
    ensures ok { IfOk result (λ s. FoundStmts reader.old s reader.new) }
    ensures shorter { OnOk result (length reader.new.rest ≤ length reader.old.rest) }
    ensures fault { IfErr result (λ e. Halts (the p.Stmts ∷ []) reader.old e reader.new) }
{
    let mut numbers = Vec::new(reader.alloc());
    while !reader.is_next(Kind::Mark(Sign::CloseBrace)) {
        let number = stmt(reader)?;
        keep(&mut numbers, number)?;
    }
    reader.no_signs();
    let span = reader.add_order(&numbers)?;
    Ok(span)
}

/// A statement.
#[cycle(stmt)]
fn stmt(reader: &mut Reader<'_>) -> Result<u32, Halt>
    ensures ok { IfOk result (λ n. FoundStmt reader.old n reader.new) }
    ensures shorter { OnOk result (length reader.new.rest < length reader.old.rest) }
    ensures fault { IfErr result (λ e. Halts (the p.Stmt ∷ [])
        (record reader.old { counts = no_signs reader.old.counts }) e reader.new) }
{
    reader.no_signs();
    let line = reader.line(0);
    let kind = kind(reader)?;
    let number = reader.add_stmt(StmtRow { line, kind })?;
    Ok(number)
}

/// What a statement says.
#[cycle(stmt)]
fn kind(reader: &mut Reader<'_>) -> Result<StmtKind, Halt>
    ensures ok { IfOk result (λ k. FoundKind reader.old k reader.new) }
    ensures shorter { OnOk result (length reader.new.rest < length reader.old.rest) }
    ensures fault { IfErr result (λ e. Halts (the p.Stmt ∷ []) reader.old e reader.new) }
{
    match stmt_start(reader.next()) {
        StmtStart::Let => let_row(reader),
        StmtStart::Assign => assign_row(reader),
        StmtStart::Call => call_row(reader),
        StmtStart::Swap => swap_row(reader),
        StmtStart::If => if_row(reader),
        StmtStart::While => while_row(reader),
        StmtStart::Enter => enter_row(reader),
        StmtStart::Print => print_row(reader),
        StmtStart::Collect => collect_row(reader),
        StmtStart::Return => return_row(reader),
        StmtStart::Nothing => Err(Halt::At(Code::Syntax)),
    }
}

/// `if e { .. }` and `if e { .. } else { .. }`
#[cycle(stmt)]
fn if_row(reader: &mut Reader<'_>) -> Result<StmtKind, Halt>
    requires { stmt_start (next reader.old.rest) ≡ StmtStart.If }
    ensures ok { IfOk result (λ k. FoundKind reader.old k reader.new) }
    ensures shorter { OnOk result (length reader.new.rest < length reader.old.rest) }
    ensures fault { IfErr result (λ e. Halts (the p.Stmt ∷ []) reader.old e reader.new) }
{
    reader.take(Kind::Word(Keyword::If))?;
    let test = reader.expr()?;
    let yes = block(reader)?;
    let no = behind_if(reader)?;
    Ok(StmtKind::If { test, yes, no })
}

/// `else { .. }`, or nothing
#[cycle(stmt)]
fn behind_if(reader: &mut Reader<'_>) -> Result<Option<Span>, Halt>
    ensures ok { IfOk result (λ o. FoundElse reader.old o reader.new) }
    ensures shorter { OnOk result (length reader.new.rest ≤ length reader.old.rest) }
    ensures fault { IfErr result (λ e. Halts (the p.Else ∷ []) reader.old e reader.new) }
{
    if reader.is_next(Kind::Word(Keyword::Else)) {
        else_row(reader)
    } else {
        Ok(None)
    }
}

/// `else { .. }`
#[cycle(stmt)]
fn else_row(reader: &mut Reader<'_>) -> Result<Option<Span>, Halt>
    requires { next reader.old.rest ≡ Some (Kind.Word Keyword.Else) }
    ensures ok { IfOk result (λ o. FoundElse reader.old o reader.new) }
    ensures shorter { OnOk result (length reader.new.rest ≤ length reader.old.rest) }
    ensures fault { IfErr result (λ e. Halts (the p.Else ∷ []) reader.old e reader.new) }
{
    reader.take(Kind::Word(Keyword::Else))?;
    let body = block(reader)?;
    Ok(Some(body))
}

/// `while e { .. }`
#[cycle(stmt)]
fn while_row(reader: &mut Reader<'_>) -> Result<StmtKind, Halt>
    requires { stmt_start (next reader.old.rest) ≡ StmtStart.While }
    ensures ok { IfOk result (λ k. FoundKind reader.old k reader.new) }
    ensures shorter { OnOk result (length reader.new.rest < length reader.old.rest) }
    ensures fault { IfErr result (λ e. Halts (the p.Stmt ∷ []) reader.old e reader.new) }
{
    reader.take(Kind::Word(Keyword::While))?;
    let test = reader.expr()?;
    let body = block(reader)?;
    Ok(StmtKind::While { test, body })
}

/// `enter q as z { .. }` and `enter q as z { .. } giving w;`
#[cycle(stmt)]
fn enter_row(reader: &mut Reader<'_>) -> Result<StmtKind, Halt>
    requires { stmt_start (next reader.old.rest) ≡ StmtStart.Enter }
    ensures ok { IfOk result (λ k. FoundKind reader.old k reader.new) }
    ensures shorter { OnOk result (length reader.new.rest < length reader.old.rest) }
    ensures fault { IfErr result (λ e. Halts (the p.Stmt ∷ []) reader.old e reader.new) }
{
    reader.take(Kind::Word(Keyword::Enter))?;
    let path = reader.path()?;
    reader.take(Kind::Word(Keyword::As))?;
    let name = reader.declare(Role::Local)?;
    let body = block(reader)?;
    let giving = giving(reader)?;
    Ok(StmtKind::Enter {
        path,
        name,
        body,
        giving,
    })
}

/// `giving w;`, or nothing
fn giving(reader: &mut Reader<'_>) -> Result<Option<u32>, Halt>
    ensures ok { IfOk result (λ o. FoundGiving reader.old o reader.new) }
    ensures shorter { OnOk result (length reader.new.rest ≤ length reader.old.rest) }
    ensures fault { IfErr result (λ e. Halts (the p.Giving ∷ []) reader.old e reader.new) }
{
    if reader.is_next(Kind::Word(Keyword::Giving)) {
        some_giving(reader)
    } else {
        Ok(None)
    }
}

/// `giving w;`
fn some_giving(reader: &mut Reader<'_>) -> Result<Option<u32>, Halt>
    requires { next reader.old.rest ≡ Some (Kind.Word Keyword.Giving) }
    ensures ok { IfOk result (λ o. FoundGiving reader.old o reader.new) }
    ensures shorter { OnOk result (length reader.new.rest ≤ length reader.old.rest) }
    ensures fault { IfErr result (λ e. Halts (the p.Giving ∷ []) reader.old e reader.new) }
{
    reader.take(Kind::Word(Keyword::Giving))?;
    let name = reader.name()?;
    reader.take(Kind::Mark(Sign::Semicolon))?;
    Ok(Some(name))
}
