//! Assignments, to a variable, a field and an element (docs/language.md, "Judgements").

ghost use Rattle.std.specs.Prelude.{◌≡◌, [], OnOk, IfSome};
ghost use Rattle.rg_tree.specs.Rows.Tables.{Tables};
ghost use Rattle.rg_tree.specs.Rows.RowTrees.{expr_at, path_of, program_of, right_of, variable_of};
ghost use Rattle.rg_tree.specs.Rows.RowsExist.{IsExprNumber, IsNameIn, IsPathIn, IsRightIn};
ghost use Rattle.rg_rules.specs.Statements as rules;
ghost use Rattle.rg_flow.specs.Scope.{env_of};
ghost use Rattle.rg_flow.specs.States.{IsReadable};
ghost use Rattle.rg_expressions.specs.Judging.{HasField};
ghost use Rattle.rg_type.specs.Inner.Changing.{DoneAs};

use crate::rights::right_side;
use rg_base::{Code, Ty};
use rg_expressions::{expression, is_iso, may_write, stays_at_depth, target, walk_array};
use rg_flow::{Env, State};
use rg_names::Book;
use rg_tree::{Path, Right};

/// `x = r;` and `q.f = r;`
pub fn assign(env: &mut Env, book: &Book, path: Path, right: Right) -> Result<(), Code>
    requires path { IsPathIn book.now.program path }
    requires right { IsRightIn book.now.program right }
    requires scope { IsReadable book.now.program env.old }
    ensures judged { let t = book.now.program in let p = path_of t path in
        DoneAs (rules.judge_assign (program_of t).classes (env_of t env.old) p.base p.fields
        (right_of t right)) (env_of t env.new) result }
    ensures scope { OnOk result (IsReadable book.now.program env.new) }
{
    if book.order(path.fields).is_empty() {
        assign_variable(env, book, path.base, right)
    } else {
        assign_field(env, book, path, right)
    }
}

// `x = r;`
fn assign_variable(env: &mut Env, book: &Book, name: Option<u32>, right: Right) -> Result<(), Code>
    requires name { IfSome name (IsNameIn book.now.program) }
    requires right { IsRightIn book.now.program right }
    requires scope { IsReadable book.now.program env.old }
    ensures judged { let t = book.now.program in
        DoneAs (rules.judge_assign (program_of t).classes (env_of t env.old)
        (variable_of t name) [] (right_of t right)) (env_of t env.new) result }
    ensures scope { OnOk result (IsReadable book.now.program env.new) }
{
    let variable = env.find(name)?;
    if !variable.assignable {
        return Err(Code::OutsideWindow);
    }
    if !env.is_at_depth(&variable) && stays_at_depth(variable.ty) {
        return Err(Code::OutsideWindow);
    }
    if variable.state.is_lent() {
        return Err(Code::Unavailable);
    }
    right_side(env, book, right, variable.ty)?;
    env.mark(name, State::Ready);
    Ok(())
}

// `q.f = r;`
fn assign_field(env: &mut Env, book: &Book, path: Path, right: Right) -> Result<(), Code>
    requires path { IsPathIn book.now.program path }
    requires field { HasField book.now.program path }
    requires right { IsRightIn book.now.program right }
    requires scope { IsReadable book.now.program env.old }
    ensures judged { let t = book.now.program in let p = path_of t path in
        DoneAs (rules.judge_assign (program_of t).classes (env_of t env.old) p.base p.fields
        (right_of t right)) (env_of t env.new) result }
    ensures scope { OnOk result (IsReadable book.now.program env.new) }
{
    let ty = target(env, book, path)?;
    if is_iso(ty) {
        return Err(Code::IsoField);
    }
    if is_call(right) {
        return Err(Code::CallTarget);
    }
    right_side(env, book, right, ty)?;
    Ok(())
}

/// `q[e] = r;`
pub fn assign_element(
    env: &mut Env,
    book: &Book,
    path: Path,
    index: u32,
    right: Right,
) -> Result<(), Code>
    requires path { IsPathIn book.now.program path }
    requires index { IsExprNumber book.now.program index }
    requires right { IsRightIn book.now.program right }
    requires scope { IsReadable book.now.program env.old }
    ensures judged { let t = book.now.program in let p = path_of t path in
        DoneAs (rules.judge_assign_element (program_of t).classes (env_of t env.old)
        p.base p.fields (expr_at t index) (right_of t right)) (env_of t env.new) result }
    ensures scope { OnOk result (IsReadable book.now.program env.new) }
{
    let array = walk_array(env, book, path)?;
    if !may_write(array.receiver) {
        return Err(Code::Capability);
    }
    if is_call(right) {
        return Err(Code::CallTarget);
    }
    expression(env, book, index, Some(Ty::Int))?;
    right_side(env, book, right, array.ty)?;
    Ok(())
}

// Whether a right side is a call.
fn is_call(right: Right) -> bool
    ensures { (t : Tables) → result ≡ rules.is_call (right_of t right) }
{
    match right {
        Right::Expr(_)
        | Right::New { .. }
        | Right::NewTmp { .. }
        | Right::NewIso { .. }
        | Right::Freeze(_)
        | Right::Merge(_)
        | Right::Read
        | Right::More => false,
        Right::Call(_) => true,
    }
}
