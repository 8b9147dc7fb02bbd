//! Statements without blocks that add and assign nothing, and the test of an `if` or a `while`
//! (docs/language.md, "Judgements").

ghost use Rattle.std.specs.Prelude.{◌≡◌, length, OnOk, IfSome};
ghost use Rattle.rg_tree.specs.Rows.RowTrees.{call_of, expr_at, program_of};
ghost use Rattle.rg_tree.specs.Rows.RowsExist.{IsCallIn, IsExprNumber};
ghost use Rattle.rg_rules.specs.Answers.{at_line};
ghost use Rattle.rg_rules.specs.Statements as rules;
ghost use Rattle.rg_names.specs.TreeAnswers.{IsKnown};
ghost use Rattle.rg_flow.specs.Scope.{env_of};
ghost use Rattle.rg_flow.specs.States.{IsReadable};
ghost use Rattle.rg_type.specs.Inner.Changing.{DoneAs, LeavesAs};

use crate::rights::call;
use rg_base::{Code, Stop, Ty};
use rg_expressions::{expression, fault, is_printable};
use rg_flow::Env;
use rg_names::Book;
use rg_tree::CallRow;

/// `call q.m(a, b);`
pub fn call_alone(env: &mut Env, book: &Book, row: CallRow) -> Result<(), Code>
    requires row { IsCallIn book.now.program row }
    requires scope { IsReadable book.now.program env.old }
    ensures judged { let t = book.now.program in
        DoneAs (rules.judge_call_alone (program_of t).classes (env_of t env.old) (call_of t row))
        (env_of t env.new) result }
    ensures scope { OnOk result (IsReadable book.now.program env.new) }
{
    call(env, book, row)?;
    Ok(())
}

/// The test of an `if` or a `while`.
pub fn tested(env: &mut Env, book: &Book, e: u32, line: u64) -> Result<(), Stop>
    requires expression { IsExprNumber book.now.program e }
    requires scope { IsReadable book.now.program env.old }
    ensures judged { let t = book.now.program in
        LeavesAs (at_line line (rules.judge_test (program_of t).classes (env_of t env.old)
        (expr_at t e))) (env_of t env.new) result }
    ensures scope { OnOk result (IsReadable book.now.program env.new) }
{
    match expression(env, book, e, Some(Ty::Bool)) {
        Ok(_) => Ok(()),
        Err(code) => Err(fault(code, line)),
    }
}

/// `print e;`
pub fn print(env: &mut Env, book: &Book, e: u32) -> Result<(), Code>
    requires expression { IsExprNumber book.now.program e }
    requires scope { IsReadable book.now.program env.old }
    ensures judged { let t = book.now.program in
        DoneAs (rules.judge_print (program_of t).classes (env_of t env.old) (expr_at t e))
        (env_of t env.new) result }
    ensures scope { OnOk result (IsReadable book.now.program env.new) }
{
    let ty = expression(env, book, e, None)?;
    if !is_printable(ty) {
        return Err(Code::Mismatch);
    }
    Ok(())
}

/// `return e;`, where a result may be given.
pub fn return_(env: &mut Env, book: &Book, e: u32, last: Option<Ty>) -> Result<(), Code>
    requires expression { IsExprNumber book.now.program e }
    requires scope { IsReadable book.now.program env.old }
    requires last { IfSome last (IsKnown (program_of book.now.program).classes) }
    ensures judged { let t = book.now.program in
        DoneAs (rules.judge_return (program_of t).classes last (env_of t env.old) (expr_at t e))
        (env_of t env.new) result }
    ensures scope { OnOk result (IsReadable book.now.program env.new) }
{
    let Some(ty) = last else {
        return Err(Code::Return);
    };
    expression(env, book, e, Some(ty))?;
    Ok(())
}
