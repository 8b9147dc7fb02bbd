//! The steps of a call, as a statement and for its result. The receiver, the arguments and the
//! count of frames come first, which may trap, then the room, and then the new frame
//! (docs/language.md, "Steps").

ghost use Rattle.std.specs.Prelude.{◌+◌, ◌<◌, ◌≡◌, ◌≤◌, flat_map, length, map, nat_lt, not};
ghost use Rattle.std.specs.Prelude.{vec_capacity, ℕ};
ghost use Rattle.rg_tree.specs.Rows.RowTrees.{call_of, expr_at};
ghost use Rattle.rg_tree.specs.Rows.RowsExist.{IsCallIn, IsSpanBelow, IsMethodIn};
ghost use Rattle.rg_tree.specs.Rows.Tables.{Tables, numbers_in};
ghost use Rattle.rg_tree.specs.Tree.{call, result_of};
ghost use Rattle.rg_rules.specs.Evaluation.{cleared, uses};
ghost use Rattle.rg_values.specs.Fits.{PartsFit, TargetFits};
ghost use Rattle.rg_statements.specs.Assignments.{AssignStands};
ghost use Rattle.rg_statements.specs.Inner.Calls.{CallIs, CalledIs, Enters};
ghost use Rattle.rg_values.specs.Spots.{AimFits, sent_to};
ghost use Rattle.rg_values.specs.Steps.{IsAt, Makes, Stands};
ghost use Rattle.rg_values.specs.Kept.{kept_of, target_of};
ghost use Rattle.rg_values.specs.Shown.{AreNamed, locals_of};

use rg_base::{FRAMES, Trap};
use rg_names::Book;
use rg_tree::{CallRow, MethodRow, Span};
use rg_values::{
    Aim, Assignment, At, Callee, FrameRow, LocalRow, Parts, Refusal, TargetRow, advance, aim_of,
    arguments, find_receiver, method_of, new_frame, open_body, use_up_all,
};
use std::alloc::Global;
use std::mem;

/// Whether there are as many frames as there may be.
fn is_deep(m: &Parts) -> bool
    ensures { result ≡ not (nat_lt (length m.now.below.items + 1) FRAMES) }
{
    m.below.len() + 1 >= FRAMES
}

/// Clears what the arguments of a call use up.
fn use_args(book: &Book, locals: &mut Vec<LocalRow>, args: Span)
    requires named { AreNamed book.now.program locals.old.items }
    requires args { IsSpanBelow book.now.program (length book.now.program.exprs) args }
    ensures cleared { let old = locals_of book.now.program locals.old.items in locals_of
        book.now.program locals.new.items ≡ cleared (flat_map (uses old) (map (expr_at
        book.now.program) (numbers_in book.now.program args))) old }
    ensures named { AreNamed book.now.program locals.new.items }
{
    use_up_all(book, locals, book.order(args));
}

/// Goes into a method, with a frame that is made.
fn enter_method(book: &Book, m: &mut Parts, at: At, args: Span, method: MethodRow, frame: FrameRow)
    requires fit { PartsFit book.now.program m.old }
    requires at { IsAt book.now.program m.old.items.items at.span at.number }
    requires args { IsSpanBelow book.now.program (length book.now.program.exprs) args }
    requires method { IsMethodIn book.now.program method }
    requires frame { AreNamed book.now.program frame.locals.items × TargetFits book.now.program
        frame.target }
    requires below { length m.old.below.items < vec_capacity m.old.below }
    requires items { length m.old.items.items + 2 ≤ vec_capacity m.old.items }
    ensures enters { Enters book.now.program (kept_of m.old) (kept_of m.new) at.number
        (numbers_in book.now.program args) method }
    ensures frame { m.new.frame ≡ frame }
    ensures fit { PartsFit book.now.program m.new }
{
    use_args(book, &mut m.frame.locals, args);
    advance(book, &mut m.items, at.span, at.number);
    open_body(book, &mut m.items, method);
    let caller = mem::replace(&mut m.frame, frame);
    m.below.push_reserved(caller);
}

/// Calls a method that was found.
fn call_method(
    alloc: Global,
    book: &Book,
    m: &mut Parts,
    at: At,
    call: CallRow,
    callee: Callee,
) -> Result<(), Refusal>
    requires fit { PartsFit book.now.program m.old }
    requires at { IsAt book.now.program m.old.items.items at.span at.number }
    requires call { IsCallIn book.now.program call }
    requires to { TargetFits book.now.program callee.to }
    requires method { IsMethodIn book.now.program callee.method }
    ensures called { CalledIs book.now.program (kept_of m.old) (kept_of m.new) at.number at.line
        callee.to call callee.found callee.method result }
    ensures fit { PartsFit book.now.program m.new }
{
    let order = book.order(call.args);
    let args = arguments(alloc, book, &m.store, &m.frame.locals, order)?;
    if is_deep(m) {
        return Err(Refusal::Trap(Trap::Depth));
    }
    let frame = new_frame(alloc, book, callee, &args)?;
    m.below.reserve(1)?;
    m.items.reserve(2)?;
    enter_method(book, m, at, call.args, callee.method, frame);
    Ok(())
}

/// Calls the method of a name of the object at the end of a path.
pub(crate) fn call_named(
    alloc: Global,
    book: &Book,
    m: &mut Parts,
    at: At,
    to: TargetRow,
    call: CallRow,
) -> Result<(), Refusal>
    requires fit { PartsFit book.now.program m.old }
    requires at { IsAt book.now.program m.old.items.items at.span at.number }
    requires call { IsCallIn book.now.program call }
    requires to { TargetFits book.now.program to }
    ensures called { CallIs book.now.program (kept_of m.old) (kept_of m.new) at.number at.line to
        call result }
    ensures fit { PartsFit book.now.program m.new }
{
    let found = find_receiver(book, &m.store, &m.frame.locals, call.path)?;
    match method_of(book, found.class, call.method) {
        Some(method) => {
            let callee = Callee { to, found, method };
            call_method(alloc, book, m, at, call, callee)
        }
        None => {
            advance(book, &mut m.items, at.span, at.number);
            Ok(())
        }
    }
}

/// Calls, without use of a result.
pub fn call_step(
    alloc: Global,
    book: &Book,
    m: &mut Parts,
    at: At,
    row: CallRow,
) -> Result<(), Refusal>
    requires stands { Stands book.now.program m.old at (call (call_of book.now.program row)) }
    requires row { IsCallIn book.now.program row }
    ensures step { Makes book.now.program (kept_of m.old) (kept_of m.new) at.line result }
    ensures fit { PartsFit book.now.program m.new }
{
    call_named(alloc, book, m, at, TargetRow::Drops, row)
}

/// Where the result of a call goes later. No field and no element takes one.
fn sent_to(aim: Aim) -> TargetRow
    ensures target { (t : Tables) → target_of t result ≡ sent_to t aim }
    ensures fits { (t : Tables) (objects : ℕ) → AimFits t objects aim → TargetFits t result }
{
    match aim {
        Aim::Declares { name, ty } => TargetRow::Declares { name, ty },
        Aim::Assigns(name) => TargetRow::Assigns(name),
        Aim::Field { .. } | Aim::Element { .. } => TargetRow::Drops,
    }
}

/// Calls, for a result that goes to what stands left of `=`.
pub(crate) fn result_step(
    alloc: Global,
    book: &Book,
    m: &mut Parts,
    to: Assignment,
    row: CallRow,
) -> Result<(), Refusal>
    requires assigns { AssignStands book.now.program m.old to
        (result_of (call_of book.now.program row)) }
    requires row { IsCallIn book.now.program row }
    ensures step { Makes book.now.program (kept_of m.old) (kept_of m.new) to.at.line result }
    ensures fit { PartsFit book.now.program m.new }
{
    let aim = aim_of(book, m, to.left)?;
    call_named(alloc, book, m, to.at, sent_to(aim), row)
}
