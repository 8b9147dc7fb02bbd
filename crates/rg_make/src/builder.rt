//! Parts of the generated program, laid into tables: each call adds what its part needs, all at
//! line 1, and answers the row, or the number, that stands for it
//! (docs/language.md, "The generated program").

ghost use Rattle.std.specs.Prelude.{None, option_map, IfOk, pos, [], ◌∷◌};
ghost use Rattle.rg_tree.specs.Tree as tree;
ghost use Rattle.rg_tree.specs.Rows.Tables.{name_at};
ghost use Rattle.rg_tree.specs.Rows.RowTrees.{path_of, type_of, expr_at, expr_of, call_of};
ghost use Rattle.rg_tree.specs.Rows.RowTrees.{right_of, stmt_at, block_of, param_at, member_at};
ghost use Rattle.rg_tree.specs.Rows.RowTrees.{member_of, variable_of};
ghost use Rattle.rg_tree.specs.Rows.RowsExist.{IsNameIn, IsPathIn, IsTypeIn, IsExprNumber};
ghost use Rattle.rg_tree.specs.Rows.RowsExist.{IsCallIn, IsRightIn, IsBlockIn, IsMemberIn};
ghost use Rattle.rg_tree.specs.Adds.{Adds};
ghost use Rattle.rg_tree.specs.Rows.RowsExist.{IsStmtNumber, IsParamNumber, IsMemberNumber};
ghost use Rattle.rg_tree.specs.Rows.RowsExist.{IsVariableIn};
ghost use Rattle.rg_make.specs.Inner.Parts.{name_text, fields_tree, path_tree, ty_tree};
ghost use Rattle.rg_make.specs.Inner.Parts.{operand_tree, expr_tree, call_tree, right_tree};
ghost use Rattle.rg_make.specs.Inner.Parts.{kind_tree, param_tree, method_tree};
ghost use Rattle.rg_make.specs.Inner.Adds.{AddsBlock, result_of};
ghost use Rattle.rg_make.specs.Inner.Adds.{IsResultIn, IsExprRow, kind_of, IsKindRow};
ghost use Rattle.rg_make.specs.Inner.Adds.{names_in, AreNamesIn};
ghost use Rattle.rg_make.specs.Inner.Adds.{params_in, AreParamsIn};

use crate::parts::{Expr, Fields, Head, Name, Operand, Path, Right, Stmt, Ty};
use rg_base::Memory;
use rg_tree::{CallRow, ExprRow, MemberRow, ParamRow, Program, Span, StmtKind, StmtRow, TypeRow};

/// Adds a name.
pub fn add_name(program: &mut Program, name: Name) -> Result<u32, Memory>
    ensures { IfOk result (λ n. Adds name_at IsNameIn program.old program.new n (name_text name)) }
{
    let number = program.add_name(name.text())?;
    Ok(number)
}

/// Adds the fields of a path.
fn add_fields(program: &mut Program, fields: Fields) -> Result<Span, Memory>
    ensures { IfOk result (λ s.
        Adds names_in AreNamesIn program.old program.new s (fields_tree fields)) }
{
    match fields {
        Fields::None => {
            let span = program.add_order(&[])?;
            Ok(span)
        }
        Fields::One(f) => {
            let one = add_name(program, f)?;
            let span = program.add_order(&[one])?;
            Ok(span)
        }
        Fields::Two(f, g) => {
            let one = add_name(program, f)?;
            let two = add_name(program, g)?;
            let span = program.add_order(&[one, two])?;
            Ok(span)
        }
    }
}

/// Adds the variable of a path.
fn add_base(program: &mut Program, base: Option<Name>) -> Result<Option<u32>, Memory>
    ensures { IfOk result (λ o.
        Adds variable_of IsVariableIn program.old program.new o (option_map name_text base)) }
{
    match base {
        None => Ok(None),
        Some(name) => Ok(Some(add_name(program, name)?)),
    }
}

/// Adds what a path needs.
pub fn path_row(program: &mut Program, path: Path) -> Result<rg_tree::Path, Memory>
    ensures { IfOk result (λ p. Adds path_of IsPathIn program.old program.new p (path_tree path)) }
{
    let base = add_base(program, path.base)?;
    let fields = add_fields(program, path.fields)?;
    Ok(rg_tree::Path { base, fields })
}

/// Adds what a type needs.
fn type_row(program: &mut Program, ty: Ty) -> Result<TypeRow, Memory>
    ensures { IfOk result (λ r. Adds type_of IsTypeIn program.old program.new r (ty_tree ty)) }
{
    match ty {
        Ty::Int => Ok(TypeRow::Int),
        Ty::Bool => Ok(TypeRow::Bool),
        Ty::Ref { cap, class } => {
            let name = add_name(program, class)?;
            Ok(TypeRow::Ref { cap, name })
        }
    }
}

/// Puts an expression, whose names and operands are there, into its table.
pub fn put_expr(program: &mut Program, row: ExprRow) -> Result<u32, Memory>
    requires { IsExprRow program.old row }
    ensures { IfOk result (λ n.
        Adds expr_at IsExprNumber program.old program.new n (expr_of program.old row)) }
{
    let number = program.add_expr(row)?;
    Ok(number)
}

/// Adds an operand.
pub fn add_operand(program: &mut Program, operand: Operand) -> Result<u32, Memory>
    ensures { IfOk result (λ n.
        Adds expr_at IsExprNumber program.old program.new n (operand_tree operand)) }
{
    match operand {
        Operand::Int(z) => {
            let number = put_expr(program, ExprRow::Int(i64::from(z)))?;
            Ok(number)
        }
        Operand::Path(path) => {
            let row = path_row(program, path)?;
            let number = put_expr(program, ExprRow::Path(row))?;
            Ok(number)
        }
    }
}

/// Adds an operator between two operands.
pub fn add_binary(
    program: &mut Program,
    op: rg_tree::BinOp,
    left: Operand,
    right: Operand,
) -> Result<u32, Memory>
    ensures { IfOk result (λ n. Adds expr_at IsExprNumber program.old program.new n
        (tree.binary op (operand_tree left) (operand_tree right))) }
{
    let left = add_operand(program, left)?;
    let right = add_operand(program, right)?;
    let number = put_expr(program, ExprRow::Binary { op, left, right })?;
    Ok(number)
}

/// Adds an expression.
fn add_expr(program: &mut Program, expr: Expr) -> Result<u32, Memory>
    ensures { IfOk result (λ n.
        Adds expr_at IsExprNumber program.old program.new n (expr_tree expr)) }
{
    match expr {
        Expr::Int(n) => {
            let number = add_operand(program, Operand::Int(n))?;
            Ok(number)
        }
        Expr::Bool(b) => {
            let number = put_expr(program, ExprRow::Bool(b))?;
            Ok(number)
        }
        Expr::Path(path) => {
            let number = add_operand(program, Operand::Path(path))?;
            Ok(number)
        }
        Expr::IsNil(path) => {
            let number = add_is_nil(program, path)?;
            Ok(number)
        }
        Expr::IsThere(path) => {
            let absent = add_is_nil(program, path)?;
            let number = put_expr(program, ExprRow::Not(absent))?;
            Ok(number)
        }
        Expr::Binary { op, left, right } => {
            let number = add_binary(program, op, left, right)?;
            Ok(number)
        }
    }
}

/// Adds a test for nil.
fn add_is_nil(program: &mut Program, path: Path) -> Result<u32, Memory>
    ensures { IfOk result (λ n. Adds expr_at IsExprNumber program.old program.new n
        (tree.is_nil (path_tree path))) }
{
    let row = path_row(program, path)?;
    let number = put_expr(program, ExprRow::IsNil(row))?;
    Ok(number)
}

/// The list that main has entered.
pub const LIST: Path = Path {
    base: Some(Name::L),
    fields: Fields::None,
};

/// Adds what `call l.m()` needs.
fn call_row(program: &mut Program, method: Name) -> Result<CallRow, Memory>
    ensures { IfOk result (λ r.
        Adds call_of IsCallIn program.old program.new r (call_tree method)) }
{
    let path = path_row(program, LIST)?;
    let method = add_name(program, method)?;
    let args = program.add_order(&[])?;
    Ok(CallRow { path, method, args })
}

/// Adds what a right side needs.
fn right_row(program: &mut Program, right: Right) -> Result<rg_tree::Right, Memory>
    ensures { IfOk result (λ r.
        Adds right_of IsRightIn program.old program.new r (right_tree right)) }
{
    match right {
        Right::Value(e) => Ok(rg_tree::Right::Expr(add_expr(program, e)?)),
        Right::New { class } => {
            let name = add_name(program, class)?;
            Ok(rg_tree::Right::New { name, size: None })
        }
        Right::NewIso { class, manager } => {
            let name = add_name(program, class)?;
            Ok(rg_tree::Right::NewIso {
                name,
                size: None,
                manager,
            })
        }
        Right::Call { method } => Ok(rg_tree::Right::Call(call_row(program, method)?)),
    }
}

/// Adds what a statement needs.
fn kind_row(program: &mut Program, stmt: Stmt) -> Result<StmtKind, Memory>
    ensures { IfOk result (λ k.
        Adds kind_of IsKindRow program.old program.new k (kind_tree stmt)) }
{
    match stmt {
        Stmt::Let { name, ty, right } => {
            let name = add_name(program, name)?;
            let ty = type_row(program, ty)?;
            let right = right_row(program, right)?;
            Ok(StmtKind::Let { name, ty, right })
        }
        Stmt::Set { path, value } => {
            let path = path_row(program, path)?;
            let value = add_expr(program, value)?;
            Ok(StmtKind::Set {
                path,
                right: rg_tree::Right::Expr(value),
            })
        }
        Stmt::Call { method } => Ok(StmtKind::Call(call_row(program, method)?)),
        Stmt::Print(path) => Ok(StmtKind::Print(add_expr(program, Expr::Path(path))?)),
        Stmt::Collect => Ok(StmtKind::Collect),
        Stmt::Return(path) => Ok(StmtKind::Return(add_expr(program, Expr::Path(path))?)),
    }
}

/// Puts a statement, whose names, expressions and blocks are there, into its table.
pub fn put_stmt(program: &mut Program, kind: StmtKind) -> Result<u32, Memory>
    requires { IsKindRow program.old kind }
    ensures { IfOk result (λ n. Adds stmt_at IsStmtNumber program.old program.new n
        (tree.stmt 1 (kind_of program.old kind))) }
{
    let number = program.add_stmt(StmtRow { line: 1, kind })?;
    Ok(number)
}

/// Adds a statement.
pub fn add_stmt(program: &mut Program, stmt: Stmt) -> Result<u32, Memory>
    ensures { IfOk result (λ n. Adds stmt_at IsStmtNumber program.old program.new n
        (tree.stmt 1 (kind_tree stmt))) }
{
    let kind = kind_row(program, stmt)?;
    let number = put_stmt(program, kind)?;
    Ok(number)
}

/// Adds `let x: T = e;`.
pub fn add_let(program: &mut Program, name: Name, ty: Ty, value: Expr) -> Result<u32, Memory>
    ensures { IfOk result (λ n. Adds stmt_at IsStmtNumber program.old program.new n
        (tree.stmt 1 (tree.declare (name_text name) (ty_tree ty) (tree.value (expr_tree value))))) }
{
    let right = Right::Value(value);
    let number = add_stmt(program, Stmt::Let { name, ty, right })?;
    Ok(number)
}

/// Adds `q = e;`.
pub fn add_set(program: &mut Program, path: Path, value: Expr) -> Result<u32, Memory>
    ensures { IfOk result (λ n. Adds stmt_at IsStmtNumber program.old program.new n
        (tree.stmt 1 (tree.assign (path_tree path) (tree.value (expr_tree value))))) }
{
    let number = add_stmt(program, Stmt::Set { path, value })?;
    Ok(number)
}

/// Keeps the statements of these numbers as a block.
pub fn add_block(program: &mut Program, numbers: &[u32]) -> Result<Span, Memory>
    ensures { IfOk result (λ s. AddsBlock program.old program.new numbers.now s) }
{
    let span = program.add_order(numbers)?;
    Ok(span)
}

/// Adds `while e { .. }` round a block.
pub fn add_while(program: &mut Program, test: Expr, body: Span) -> Result<u32, Memory>
    requires { IsBlockIn program.old body }
    ensures { IfOk result (λ n. Adds stmt_at IsStmtNumber program.old program.new n
        (tree.stmt 1 (tree.while (expr_tree test) (block_of program.old body)))) }
{
    let test = add_expr(program, test)?;
    let number = put_stmt(program, StmtKind::While { test, body })?;
    Ok(number)
}

/// Adds `if e { .. } else { .. }` round two blocks.
pub fn add_if(program: &mut Program, test: Expr, first: Span, second: Span) -> Result<u32, Memory>
    requires first { IsBlockIn program.old first }
    requires second { IsBlockIn program.old second }
    ensures { IfOk result (λ n. Adds stmt_at IsStmtNumber program.old program.new n
        (tree.stmt 1 (tree.branch (expr_tree test) (block_of program.old first)
        (tree.otherwise (block_of program.old second))))) }
{
    let test = add_expr(program, test)?;
    let kind = StmtKind::If {
        test,
        yes: first,
        no: Some(second),
    };
    let number = put_stmt(program, kind)?;
    Ok(number)
}

/// Adds `enter q as z { .. }` round a block.
pub fn add_enter(program: &mut Program, path: Path, name: Name, body: Span) -> Result<u32, Memory>
    requires { IsBlockIn program.old body }
    ensures { IfOk result (λ n. Adds stmt_at IsStmtNumber program.old program.new n
        (tree.stmt 1 (tree.enter (path_tree path) (name_text name) (block_of program.old body)
        None))) }
{
    let path = path_row(program, path)?;
    let name = add_name(program, name)?;
    let kind = StmtKind::Enter {
        path,
        name,
        body,
        giving: None,
    };
    let number = put_stmt(program, kind)?;
    Ok(number)
}

/// Puts a member, whose parts are there, into its table.
fn put_member(program: &mut Program, row: MemberRow) -> Result<u32, Memory>
    requires { IsMemberIn program.old row }
    ensures { IfOk result (λ n.
        Adds member_at IsMemberNumber program.old program.new n (member_of program.old row)) }
{
    let number = program.add_member(row)?;
    Ok(number)
}

/// Adds a field.
pub fn add_field(program: &mut Program, name: Name, ty: Ty) -> Result<u32, Memory>
    ensures { IfOk result (λ n. Adds member_at IsMemberNumber program.old program.new n
        (tree.field (record { name = name_text name; ty = ty_tree ty; line = 1 }))) }
{
    let name = add_name(program, name)?;
    let ty = type_row(program, ty)?;
    let number = put_member(program, MemberRow::Field { name, ty, line: 1 })?;
    Ok(number)
}

/// Adds a parameter that is a number.
fn add_param(program: &mut Program, name: Name) -> Result<u32, Memory>
    ensures { IfOk result (λ n. Adds param_at IsParamNumber program.old program.new n
        (record { name = name_text name; ty = tree.int })) }
{
    let name = add_name(program, name)?;
    let number = program.add_param(ParamRow {
        name,
        ty: TypeRow::Int,
    })?;
    Ok(number)
}

/// Adds the parameters of a method.
fn add_params(program: &mut Program, param: Option<Name>) -> Result<Span, Memory>
    ensures { IfOk result (λ s.
        Adds params_in AreParamsIn program.old program.new s (param_tree param)) }
{
    match param {
        None => {
            let span = program.add_order(&[])?;
            Ok(span)
        }
        Some(name) => {
            let number = add_param(program, name)?;
            let span = program.add_order(&[number])?;
            Ok(span)
        }
    }
}

/// Adds the type of a result.
fn result_row(program: &mut Program, ty: Option<Ty>) -> Result<Option<TypeRow>, Memory>
    ensures { IfOk result (λ o.
        Adds result_of IsResultIn program.old program.new o (option_map ty_tree ty)) }
{
    match ty {
        None => Ok(None),
        Some(ty) => Ok(Some(type_row(program, ty)?)),
    }
}

/// Adds a method round its body.
pub fn add_method(program: &mut Program, head: Head, body: Span) -> Result<u32, Memory>
    requires { IsBlockIn program.old body }
    ensures { IfOk result (λ n. Adds member_at IsMemberNumber program.old program.new n
        (method_tree head (block_of program.old body))) }
{
    let name = add_name(program, head.name)?;
    let params = add_params(program, head.param)?;
    let result = result_row(program, head.result)?;
    let method = MemberRow::Method {
        cap: head.receiver,
        name,
        params,
        result,
        body,
        line: 1,
    };
    let number = put_member(program, method)?;
    Ok(number)
}
