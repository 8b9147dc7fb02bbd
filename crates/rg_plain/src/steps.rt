//! The step of the thing to do that comes next (docs/language.md, "Steps").

mod input;
mod says;

ghost use Rattle.std.specs.Prelude.{◌++◌, ◌∷◌, ◌≡◌, ◌≢◌, ◌≤◌, [], List, false, length, true};
ghost use Rattle.rg_tree.specs.Rows.RowTrees.{kind_over, stmt_at};
ghost use Rattle.rg_tree.specs.Rows.RowsExist.{IsKindIn};
ghost use Rattle.rg_tree.specs.Tree.{collect};
ghost use Rattle.rg_rules.specs.Outside.Inputs.{first_asks, kind_asks};
ghost use Rattle.rg_io.specs.Content.{Rose};
ghost use Rattle.rg_input.specs.Numbers.{AsksFor, Follows, OnInput, Pending, is_input_fault};
ghost use Rattle.rg_values.specs.Fits.{PartsFit};
ghost use Rattle.rg_plain.specs.Inner.Inputs.{MadeOn, SettlesOn};
ghost use Rattle.rg_values.specs.Steps.{Makes, Stands};
ghost use Rattle.rg_values.specs.Kept.{kept_of, shown};
ghost use Rattle.rg_plain.specs.Outcomes.{EndsMain, LeavesRows};
ghost use Rattle.rg_values.specs.Printing.{prints};
ghost use Rattle.rg_plain.specs.Outcomes.{settled_outcome};

use crate::steps::input::{Wanted, input_step};
use crate::steps::says::{Says, said};
use rg_base::Outcome;
use rg_input::Numbers;
use rg_io::Source;
use rg_names::Book;
use rg_statements::{
    Entrance, back_step, branch_step, call_step, end_step, enter_step, leave_giving_step,
    leave_step, print_step, return_step, right_step, swap_step, while_step,
};
use rg_tree::{Span, StmtKind};
use rg_values::{Assignment, At, ItemRow, Left, Parts, Refusal, advance, first, outcome, printed};
use std::alloc::Global;

/// Does what a statement says that neither reads nor prints.
fn kind_step(
    alloc: Global,
    book: &Book,
    m: &mut Parts,
    at: At,
    kind: StmtKind,
) -> Result<(), Refusal>
    requires stands { Stands book.now.program m.old at (kind_over book.now.program (stmt_at
        book.now.program) kind) }
    requires below { IsKindIn book.now.program (length book.now.program.stmts) kind }
    requires asks_nothing { kind_asks (kind_over book.now.program (stmt_at book.now.program) kind) ≡
        false }
    requires silent { prints (kind_over book.now.program (stmt_at book.now.program) kind) ≡ false }
    ensures step { Makes book.now.program (kept_of m.old) (kept_of m.new) at.line result }
    ensures fit { PartsFit book.now.program m.new }
{
    match kind {
        StmtKind::Let { name, ty, right } => {
            let left = Left::Let { name, ty };
            right_step(alloc, book, m, Assignment { at, left }, right)
        }
        StmtKind::Set { path, right } => {
            let left = Left::Set(path);
            right_step(alloc, book, m, Assignment { at, left }, right)
        }
        StmtKind::SetAt { path, index, right } => {
            let left = Left::SetAt { path, index };
            right_step(alloc, book, m, Assignment { at, left }, right)
        }
        StmtKind::If { test, yes, no } => branch_step(book, m, at, test, yes, no),
        StmtKind::While { test, body } => while_step(book, m, at, test, body),
        StmtKind::Print(_) => unreachable!(),
        StmtKind::Collect => collect_step(book, m, at),
        StmtKind::Call(row) => call_step(alloc, book, m, at, row),
        StmtKind::Swap { name, path } => swap_step(book, m, at, name, path),
        StmtKind::Enter {
            path,
            name,
            body,
            giving,
        } => {
            let entrance = Entrance {
                line: at.line,
                path,
                name,
                giving,
            };
            enter_step(book, m, at, entrance, body)
        }
        StmtKind::Return(e) => return_step(book, m, at, e),
    }
}

/// Makes the step of the first statement of the topmost row.
fn statement_step<S: Source>(
    alloc: Global,
    book: &Book,
    m: &mut Parts,
    span: Span,
    numbers: &mut Numbers,
    source: &mut S,
) -> Outcome
    requires top { (below : List ItemRow) × (m.old.items.items ≡ below ++ ItemRow.Rest span ∷ []) }
    requires fit { PartsFit book.now.program m.old }
    requires follows { Follows numbers.old (S.left source.old) }
    ensures { MadeOn S.left S.faults S.replies book.now.program m.old m.new numbers.old numbers.new
        source.old source.new result }
{
    let number = first(book, &m.items, span);
    let row = book.stmt(number);
    let at = At {
        span,
        number,
        line: row.line,
    };
    match said(row.kind) {
        Says::Reads(left) => {
            let to = Assignment { at, left };
            input_step(book, m, to, Wanted::Number, numbers, source)
        }
        Says::Asks(left) => {
            let to = Assignment { at, left };
            input_step(book, m, to, Wanted::More, numbers, source)
        }
        Says::Prints(e) => printed(print_step(book, m, at, e), at.line),
        Says::Nothing => outcome(kind_step(alloc, book, m, at, row.kind), at.line),
    }
}

/// Makes the step of the topmost row.
fn row_step<S: Source>(
    alloc: Global,
    book: &Book,
    m: &mut Parts,
    row: ItemRow,
    numbers: &mut Numbers,
    source: &mut S,
) -> Outcome
    requires top { (below : List ItemRow) × (m.old.items.items ≡ below ++ row ∷ []) }
    requires fit { PartsFit book.now.program m.old }
    requires follows { Follows numbers.old (S.left source.old) }
    ensures { MadeOn S.left S.faults S.replies book.now.program m.old m.new numbers.old numbers.new
        source.old source.new result }
{
    match row {
        ItemRow::Rest(span) => { statement_step(alloc, book, m, span, numbers, source) }
        ItemRow::EndAt(kept) => {
            end_step(book, m, kept);
            Outcome::Running
        }
        ItemRow::LeaveAt(kept) => {
            leave_step(book, m, kept);
            Outcome::Running
        }
        ItemRow::LeaveGiving { line, kept, name } => {
            outcome(leave_giving_step(book, m, line, kept, name), line)
        }
        ItemRow::Back => {
            back_step(book, m);
            Outcome::Running
        }
    }
}

/// A step that went is the last one where nothing is left.
fn settled(outcome: Outcome, empty: bool) -> Outcome
    ensures { result ≡ settled_outcome outcome empty }
{
    match outcome {
        Outcome::Running => {
            if empty {
                Outcome::Done
            } else {
                Outcome::Running
            }
        }
        Outcome::Printed(v) => Outcome::Printed(v),
        Outcome::Done => Outcome::Done,
        Outcome::Trap { kind, line } => Outcome::Trap { kind, line },
        Outcome::InputFault => Outcome::InputFault,
        Outcome::Memory => Outcome::Memory,
    }
}

/// Makes a step.
pub(crate) fn whole_step<S: Source>(
    alloc: Global,
    book: &Book,
    m: &mut Parts,
    numbers: &mut Numbers,
    source: &mut S,
) -> Outcome
    requires left { m.old.items.items ≢ [] }
    requires fit { PartsFit book.now.program m.old }
    requires ends { EndsMain (shown book.now.program m.old.items.items) }
    requires follows { Follows numbers.old (S.left source.old) }

    ensures step { OnInput numbers.old numbers.new (S.left source.old) (S.left source.new)
        (SettlesOn book.now.program (kept_of m.old) (kept_of m.new) result) }
    ensures reads_nothing { first_asks (shown book.now.program m.old.items.items) ≡ false →
        (numbers.new ≡ numbers.old) × (source.new ≡ source.old) }
    ensures left { LeavesRows m.new.items.items result }
    ensures fit { PartsFit book.now.program m.new }
    ensures ends { EndsMain (shown book.now.program m.new.items.items) }

    ensures follows { Follows numbers.new (S.left source.new) }
    ensures input_fault { result ≡ Outcome.InputFault →
        first_asks (shown book.now.program m.old.items.items) ≡ true }
    ensures asks { (n : Pending) ×
        AsksFor S.replies (is_input_fault result) numbers.old n source.old source.new }
    ensures fault { result ≡ Outcome.InputFault → Rose (S.faults source.old) (S.faults source.new) }
    ensures no_fault { result ≢ Outcome.InputFault → S.faults source.new ≡ S.faults source.old }
    ensures never_falls { S.faults source.old ≤ S.faults source.new }
{
    let row = m.items[m.items.len() - 1];
    let outcome = row_step(alloc, book, m, row, numbers, source);
    settled(outcome, m.items.is_empty())
}

/// Does nothing: this machine frees nothing.
pub(crate) fn collect_step(book: &Book, m: &mut Parts, at: At) -> Result<(), Refusal>
    requires stands { Stands book.now.program m.old at (collect) }
    ensures step { Makes book.now.program (kept_of m.old) (kept_of m.new) at.line result }
    ensures fit { PartsFit book.now.program m.new }
{
    advance(book, &mut m.items, at.span, at.number);
    Ok(())
}
