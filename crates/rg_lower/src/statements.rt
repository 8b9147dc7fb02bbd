//! The code of statements and blocks (docs/language.md, "Instructions and lowering"). A jump is
//! written before what it jumps over, and set behind it.

ghost use Rattle.std.specs.Prelude.{◌≡◌, ◌+◌, ◌<◌, ◌≤◌, suc, length, option_map, IfOk, IfSome};
ghost use Rattle.std.specs.Prelude.{OnOk};
ghost use Rattle.rg_base.specs.declared.limits.TheConstants.{BODY_NAMES};
ghost use Rattle.rg_tree.specs.Rows.Tables.{name_at};
ghost use Rattle.rg_tree.specs.Rows.RowTrees.{block_of, classes_of, else_over, expr_at, path_of};
ghost use Rattle.rg_tree.specs.Rows.RowTrees.{stmt_at};
ghost use Rattle.rg_tree.specs.Rows.RowsExist.{IsBlockIn, IsExprNumber, IsNameIn, IsPathIn};
ghost use Rattle.rg_rules.specs.Names.{block_names, else_names, stmt_names};
ghost use Rattle.rg_code.specs.Lowering.{block_code, else_code, else_gap};
ghost use Rattle.rg_lower.specs.Inner.Slots.{scope_of, AreHeldIn};
ghost use Rattle.rg_lower.specs.Inner.Emitted.{with_ops};
ghost use Rattle.rg_lower.specs.Inner.Statements.{branch_code, loop_code, nested_code, stmt_code};
ghost use Rattle.rg_lower.specs.Inner.Statements.{window_code, IsAtEnd, IsBehind};

use crate::calls::write_alone;
use crate::slots::Slots;
use crate::targets::{write_assign, write_assign_element, write_let, write_swap};
use crate::wholes::{write_test, write_then};
use crate::windows::{Entrance, leaving, write_entry};
use crate::writer::Writer;
use rg_base::Memory;
use rg_code::Op;
use rg_names::Book;
use rg_tree::{Span, StmtKind};

/// A block within a statement, whose line the mark in front of the block's end has.
#[derive(Clone, Copy)]
struct Nested {
    line: u64,
    span: Span,
}

/// Appends the code of a statement.
#[cycle(statement)]
fn write_stmt(book: &Book, slots: &mut Slots, n: u32, code: &mut Writer) -> Result<(), Memory>
    requires held { AreHeldIn book.now.program slots.old }
    requires n { n < length book.now.program.stmts }
    requires room { length slots.old + stmt_names (stmt_at book.now.program n) ≤ BODY_NAMES }
    ensures code { OnOk result (let t = book.now.program in code.new ≡ with_ops code.old
        (stmt_code (classes_of t) (scope_of t slots.old) (length code.old.ops) (stmt_at t n))) }
    ensures slots { OnOk result (let t = book.now.program in
        IsBehind t slots.old slots.new (stmt_at t n)) }
{
    let row = book.stmt(n);
    let line = row.line;
    let head = code.len();
    code.push(Op::Mark { line })?;
    match row.kind {
        StmtKind::Let { name, ty, right } => write_let(book, slots, name, ty, right, code),
        StmtKind::Set { path, right } => write_assign(book, slots, path, right, code),
        StmtKind::SetAt { path, index, right } => {
            write_assign_element(book, slots, path, index, right, code)
        }
        StmtKind::Call(call) => write_alone(book, slots, call, code),
        StmtKind::Swap { name, path } => write_swap(book, slots, name, path, code),
        StmtKind::If { test, yes, no } => {
            let yes = Nested { line, span: yes };
            write_if(book, slots, test, yes, no, code)
        }
        StmtKind::While { test, body } => {
            let body = Nested { line, span: body };
            write_while(book, slots, head, test, body, code)
        }
        StmtKind::Enter {
            path,
            name,
            body,
            giving,
        } => {
            let entrance = Entrance { path, name, giving };
            let body = Nested { line, span: body };
            write_enter(book, slots, entrance, body, code)
        }
        StmtKind::Print(e) => write_then(book, slots, e, Op::Print, code),
        StmtKind::Collect => code.push(Op::Collect),
        StmtKind::Return(e) => write_then(book, slots, e, Op::Ret, code),
    }
}

// Appends the code of an `if` behind its mark.
#[cycle(statement)]
fn write_if(
    book: &Book,
    slots: &mut Slots,
    test: u32,
    yes: Nested,
    no: Option<Span>,
    code: &mut Writer,
) -> Result<(), Memory>
    requires held { AreHeldIn book.now.program slots.old }
    requires test { IsExprNumber book.now.program test }
    requires yes { IsBlockIn book.now.program yes.span }
    requires no { IfSome no (IsBlockIn book.now.program) }
    requires room { let t = book.now.program in length slots.old
        + (block_names (block_of t yes.span) + else_names (else_over t (stmt_at t) no))
        ≤ BODY_NAMES }
    ensures code { OnOk result (let t = book.now.program in code.new ≡ with_ops code.old
        (branch_code (classes_of t) (scope_of t slots.old) (length code.old.ops) yes.line
        (expr_at t test) (block_of t yes.span) (else_over t (stmt_at t) no))) }
    ensures slots { OnOk result (slots.new ≡ slots.old) }
{
    let jump = write_test(book, slots, test, code)?;
    write_nested(book, slots, yes, code)?;
    let to = write_else(book, slots, yes.line, no, code)?;
    code.set(jump, Op::JumpFalse { to });
    Ok(())
}

// Appends what stands behind the first block of an `if`; where the code goes on if its test fails.
#[cycle(statement)]
fn write_else(
    book: &Book,
    slots: &mut Slots,
    line: u64,
    no: Option<Span>,
    code: &mut Writer,
) -> Result<usize, Memory>
    requires held { AreHeldIn book.now.program slots.old }
    requires no { IfSome no (IsBlockIn book.now.program) }
    requires room { let t = book.now.program in
        length slots.old + else_names (else_over t (stmt_at t) no) ≤ BODY_NAMES }
    ensures code { OnOk result (let t = book.now.program in code.new ≡ with_ops code.old
        (else_code (classes_of t) (scope_of t slots.old) (length code.old.ops) line
        (else_over t (stmt_at t) no))) }
    ensures to { IfOk result (λ to. let t = book.now.program in
        to + 2 ≡ length code.old.ops + else_gap (else_over t (stmt_at t) no)) }
    ensures slots { OnOk result (slots.new ≡ slots.old) }
{
    match no {
        None => Ok(code.len()),
        Some(span) => {
            let over = code.len();
            code.push(Op::Jump { to: 0 })?;
            let to = code.len();
            write_nested(book, slots, Nested { line, span }, code)?;
            let end = code.len();
            code.set(over, Op::Jump { to: end });
            Ok(to)
        }
    }
}

// Appends the code of a `while` behind its mark, which stands at the head.
#[cycle(statement)]
fn write_while(
    book: &Book,
    slots: &mut Slots,
    head: usize,
    test: u32,
    body: Nested,
    code: &mut Writer,
) -> Result<(), Memory>
    requires held { AreHeldIn book.now.program slots.old }
    requires test { IsExprNumber book.now.program test }
    requires body { IsBlockIn book.now.program body.span }
    requires room { let t = book.now.program in
        length slots.old + block_names (block_of t body.span) ≤ BODY_NAMES }
    ensures code { OnOk result (let t = book.now.program in code.new ≡ with_ops code.old
        (loop_code (classes_of t) (scope_of t slots.old) head (length code.old.ops) body.line
        (expr_at t test) (block_of t body.span))) }
    ensures slots { OnOk result (slots.new ≡ slots.old) }
{
    let jump = write_test(book, slots, test, code)?;
    write_nested(book, slots, body, code)?;
    code.push(Op::Jump { to: head })?;
    let to = code.len();
    code.set(jump, Op::JumpFalse { to });
    Ok(())
}

// Appends the code of an `enter` behind its mark.
#[cycle(statement)]
fn write_enter(
    book: &Book,
    slots: &mut Slots,
    entrance: Entrance,
    body: Nested,
    code: &mut Writer,
) -> Result<(), Memory>
    requires held { AreHeldIn book.now.program slots.old }
    requires path { IsPathIn book.now.program entrance.path }
    requires name { IsNameIn book.now.program entrance.name }
    requires giving { IfSome entrance.giving (IsNameIn book.now.program) }
    requires body { IsBlockIn book.now.program body.span }
    requires room { let t = book.now.program in
        length slots.old + suc (block_names (block_of t body.span)) ≤ BODY_NAMES }
    ensures code { OnOk result (let t = book.now.program in code.new ≡ with_ops code.old
        (window_code (classes_of t) (scope_of t slots.old) (length code.old.ops) body.line
        (path_of t entrance.path) (name_at t entrance.name) (block_of t body.span)
        (option_map (name_at t) entrance.giving))) }
    ensures slots { OnOk result (slots.new ≡ slots.old) }
{
    let first = slots.next();
    let ty = write_entry(book, slots, entrance.path, code)?;
    slots.push(Some(entrance.name), ty)?;
    write_these(book, slots, body.span, code)?;
    let leave = leaving(book, slots, first, entrance.giving);
    slots.keep(first);
    code.push(Op::Mark { line: body.line })?;
    code.push(leave)?;
    Ok(())
}

// Appends the code of a block and of its end.
#[cycle(statement)]
fn write_nested(
    book: &Book,
    slots: &mut Slots,
    block: Nested,
    code: &mut Writer,
) -> Result<(), Memory>
    requires held { AreHeldIn book.now.program slots.old }
    requires block { IsBlockIn book.now.program block.span }
    requires room { let t = book.now.program in
        length slots.old + block_names (block_of t block.span) ≤ BODY_NAMES }
    ensures code { OnOk result (let t = book.now.program in code.new ≡ with_ops code.old
        (nested_code (classes_of t) (scope_of t slots.old) (length code.old.ops) block.line
        (block_of t block.span))) }
    ensures slots { OnOk result (slots.new ≡ slots.old) }
{
    write_block(book, slots, block.span, code)?;
    code.push(Op::Mark { line: block.line })?;
    code.push(Op::End { slot: slots.next() })
}

/// Appends the code of the statements of a block. Its variables are gone then.
#[cycle(statement)]
pub fn write_block(
    book: &Book,
    slots: &mut Slots,
    block: Span,
    code: &mut Writer,
) -> Result<(), Memory>
    requires held { AreHeldIn book.now.program slots.old }
    requires block { IsBlockIn book.now.program block }
    requires room { let t = book.now.program in
        length slots.old + block_names (block_of t block) ≤ BODY_NAMES }
    ensures code { OnOk result (let t = book.now.program in code.new ≡ with_ops code.old
        (block_code (classes_of t) (scope_of t slots.old) (length code.old.ops)
        (block_of t block))) }
    ensures slots { OnOk result (slots.new ≡ slots.old) }
{
    let first = slots.next();
    write_these(book, slots, block, code)?;
    slots.keep(first);
    Ok(())
}

// Appends the code of the statements of a block, whose variables are still there.
#[cycle(statement)]
fn write_these(book: &Book, slots: &mut Slots, block: Span, code: &mut Writer) -> Result<(), Memory>
    requires held { AreHeldIn book.now.program slots.old }
    requires block { IsBlockIn book.now.program block }
    requires room { let t = book.now.program in
        length slots.old + block_names (block_of t block) ≤ BODY_NAMES }
    ensures code { OnOk result (let t = book.now.program in code.new ≡ with_ops code.old
        (block_code (classes_of t) (scope_of t slots.old) (length code.old.ops)
        (block_of t block))) }
    ensures slots { OnOk result (let t = book.now.program in
        IsAtEnd t slots.old slots.new (block_of t block)) }
{
    let these = book.order(block);
    for n in these {
        write_stmt(book, slots, *n, code)?;
    }
    Ok(())
}
