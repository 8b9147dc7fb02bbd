//! Expressions (docs/language.md, "Judgements").

mod path;

ghost use Rattle.std.specs.Prelude.{◌≡◌, IfOk, IfSome, List, OnOk};
ghost use Rattle.rg_tree.specs.Rows.RowTrees.{expr_at, path_of, program_of};
ghost use Rattle.rg_tree.specs.Rows.RowsExist.{IsExprNumber, IsPathIn};
ghost use Rattle.rg_tree.specs.Tree.{Class};
ghost use Rattle.rg_rules.specs.Environment.{Env as Variables};
ghost use Rattle.rg_rules.specs.Expressions as rules;
ghost use Rattle.rg_names.specs.TableOf.{IsTableOf};
ghost use Rattle.rg_names.specs.TreeAnswers.{IsKnown};
ghost use Rattle.rg_expressions.specs.Judging.{TypedAs};
ghost use Rattle.rg_expressions.specs.Inner.Operations.{element_of, operation_of, own_type_of};
ghost use Rattle.rg_expressions.specs.Judging.{ExprJudgedAs};
ghost use Rattle.rg_flow.specs.Scope.{env_of, IsScopeIn};
ghost use Rattle.rg_flow.specs.States.{IsReadable};

use crate::faults::fault;
use crate::judged::Judged;
use crate::operators::Operators;
use crate::paths::{read_through, walk_array};
use path::{is_nil, path};
use rg_base::{Code, Stop, Ty};
use rg_flow::Env;
use rg_names::{Book, Classes};
use rg_rules::below;
use rg_tree::{BinOp, ExprRow, Path, Program};

/// The type of an expression, of which a type may be expected, and the variables afterwards; or the
/// first fault, at the line of its statement.
pub fn judge_expr(
    env: Env,
    program: &Program,
    classes: &Classes,
    e: u32,
    wanted: Option<Ty>,
    line: u64,
) -> Result<Judged, Stop>
    requires table { IsTableOf program.now classes.now }
    requires expression { IsExprNumber program.now e }
    requires scope { IsScopeIn program.now env }
    requires wanted { IfSome wanted (IsKnown (program_of program.now).classes) }
    ensures judged { let t = program.now in
        ExprJudgedAs t line (rules.judge_expr (program_of t).classes (env_of t env) wanted
        (expr_at t e)) result }
    ensures scope { IfOk result (λ j. IsScopeIn program.now j.env) }
    ensures known { IfOk result (λ j. IsKnown (program_of program.now).classes j.ty) }
{
    let mut env = env;
    let book = Book::new(program, classes);
    match expression(&mut env, &book, e, wanted) {
        Ok(ty) => Ok(Judged { ty, env }),
        Err(code) => Err(fault(code, line)),
    }
}

/// The type of an expression, of which a type may be expected.
#[cycle(expression)]
pub fn expression(env: &mut Env, book: &Book, e: u32, wanted: Option<Ty>) -> Result<Ty, Code>
    requires expression { IsExprNumber book.now.program e }
    requires scope { IsReadable book.now.program env.old }
    requires wanted { IfSome wanted (IsKnown (program_of book.now.program).classes) }
    ensures judged { let t = book.now.program in
        TypedAs (rules.judge_expr (program_of t).classes (env_of t env.old) wanted
        (expr_at t e)) (env_of t env.new) result }
    ensures scope { OnOk result (IsReadable book.now.program env.new) }
    ensures known { IfOk result (IsKnown (program_of book.now.program).classes) }
{
    let ty = own_type(env, book, e, wanted)?;
    against(wanted, ty)
}

// The type of an expression by itself, in front of the last test; `nil` has the expected one.
#[cycle(expression)]
fn own_type(env: &mut Env, book: &Book, e: u32, wanted: Option<Ty>) -> Result<Ty, Code>
    requires expression { IsExprNumber book.now.program e }
    requires scope { IsReadable book.now.program env.old }
    requires wanted { IfSome wanted (IsKnown (program_of book.now.program).classes) }
    ensures judged { let t = book.now.program in
        TypedAs (own_type_of (program_of t).classes (env_of t env.old) wanted (expr_at t e))
        (env_of t env.new) result }
    ensures scope { OnOk result (IsReadable book.now.program env.new) }
    ensures known { IfOk result (IsKnown (program_of book.now.program).classes) }
{
    match book.expr(e) {
        ExprRow::Int(_) => Ok(Ty::Int),
        ExprRow::Bool(_) => Ok(Ty::Bool),
        ExprRow::Nil => nil_type(wanted),
        ExprRow::Path(read) => path(env, book, read),
        ExprRow::IsNil(read) => {
            is_nil(env, book, read)?;
            Ok(Ty::Bool)
        },
        ExprRow::Neg(a) => {
            expression(env, book, a, Some(Ty::Int))?;
            Ok(Ty::Int)
        },
        ExprRow::Not(a) => {
            expression(env, book, a, Some(Ty::Bool))?;
            Ok(Ty::Bool)
        },
        ExprRow::Binary { op, left, right } => operation(env, book, op, left, right),
        ExprRow::Size(read) => {
            walk_array(env, book, read)?;
            Ok(Ty::Int)
        },
        ExprRow::At { path, index } => element(env, book, path, index),
    }
}

// `q[e]`: the array is found before its index is judged.
#[cycle(expression)]
fn element(env: &mut Env, book: &Book, path: Path, index: u32) -> Result<Ty, Code>
    requires path { IsPathIn book.now.program path }
    requires index { IsExprNumber book.now.program index }
    requires scope { IsReadable book.now.program env.old }
    ensures judged { let t = book.now.program in
        TypedAs (element_of (program_of t).classes (env_of t env.old) (path_of t path)
        (expr_at t index)) (env_of t env.new) result }
    ensures scope { OnOk result (IsReadable book.now.program env.new) }
    ensures known { IfOk result (IsKnown (program_of book.now.program).classes) }
{
    let array = walk_array(env, book, path)?;
    let ty = read_through(array.receiver, array.ty)?;
    expression(env, book, index, Some(Ty::Int))?;
    Ok(ty)
}

// An operator between two operands, of which the left one is judged first.
#[cycle(expression)]
fn operation(env: &mut Env, book: &Book, op: BinOp, left: u32, right: u32) -> Result<Ty, Code>
    requires left { IsExprNumber book.now.program left }
    requires right { IsExprNumber book.now.program right }
    requires scope { IsReadable book.now.program env.old }
    ensures judged { let t = book.now.program in
        TypedAs (operation_of (program_of t).classes (env_of t env.old) op (expr_at t left)
        (expr_at t right)) (env_of t env.new) result }
    ensures scope { OnOk result (IsReadable book.now.program env.new) }
    ensures known { IfOk result (IsKnown (program_of book.now.program).classes) }
{
    let operators = Operators::among(op);
    let operand = operators.operand_type();
    let first = expression(env, book, left, operand)?;
    let second = expression(env, book, right, operand)?;
    if !operators.agree(first, second) {
        return Err(Code::Mismatch);
    }
    Ok(operators.result_type())
}

/// The last test: the type is below the expected one, if one is expected.
pub fn against(wanted: Option<Ty>, ty: Ty) -> Result<Ty, Code>
    ensures judged { (env : Variables) → TypedAs (rules.against wanted ty env) env result }
    ensures same { IfOk result (λ t. t ≡ ty) }
    ensures known { (classes : List Class) → IsKnown classes ty → IfOk result (IsKnown classes) }
{
    match wanted {
        None => Ok(ty),
        Some(upper) => {
            if below(ty, upper) {
                Ok(ty)
            } else {
                Err(Code::Mismatch)
            }
        },
    }
}

// The type of `nil` is the expected one, which must be a reference.
fn nil_type(wanted: Option<Ty>) -> Result<Ty, Code>
    ensures judged { result ≡ rules.nil_type wanted }
    ensures known { (classes : List Class) → IfSome wanted (IsKnown classes)
        → IfOk result (IsKnown classes) }
{
    match wanted {
        None => Err(Code::Mismatch),
        Some(ty) => match ty {
            Ty::Int | Ty::Bool => Err(Code::Mismatch),
            Ty::Ref { .. } => Ok(ty),
        },
    }
}
