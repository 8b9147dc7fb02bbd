//! Expressions, with parentheses exactly where an operand can't stand bare (docs/language.md,
//! "Canonical text").

ghost use Rattle.std.specs.Prelude.{◌≡◌, ℕ, ◌<◌, ◌++◌, codes, length, OnOk};
ghost use Rattle.rg_tree.specs.Canonical.{expr_text, level, operand};
ghost use Rattle.rg_tree.specs.Rows.RowTrees.{expr_at};
ghost use Rattle.rg_tree.specs.Rows.RowsExist.{IsExprNumber};

use crate::names::write_path;
use crate::words::{least_left, least_right, op_bytes, own_level};
use itoa::Buffer;
use rg_base::{ByteList, Memory};
use rg_tree::{ExprRow, Program};

/// How tight an expression binds.
fn level_of(program: &Program, e: u32) -> u8
    requires { IsExprNumber program.now e }
    ensures { result ≡ level (expr_at program.now e) }
{
    match program.expr(e) {
        ExprRow::Int(_) | ExprRow::Bool(_) | ExprRow::Nil => 7,
        ExprRow::Path(_) | ExprRow::IsNil(_) | ExprRow::Size(_) | ExprRow::At { .. } => 7,
        ExprRow::Neg(_) => 6,
        ExprRow::Not(_) => 2,
        ExprRow::Binary { op, .. } => own_level(op),
    }
}

/// Appends an expression.
#[cycle(expression)]
pub fn write_expr(program: &Program, e: u32, out: &mut ByteList) -> Result<(), Memory>
    requires { IsExprNumber program.now e }
    ensures { OnOk result (out.new ≡ out.old ++ expr_text (expr_at program.now e)) }
{
    match program.expr(e) {
        ExprRow::Int(z) => out.extend(Buffer::new().format(z).as_bytes()),
        ExprRow::Bool(true) => out.extend(b"true"),
        ExprRow::Bool(false) => out.extend(b"false"),
        ExprRow::Nil => out.extend(b"nil"),
        ExprRow::Path(path) => write_path(program, path, out),
        ExprRow::IsNil(path) => {
            write_path(program, path, out)?;
            out.extend(b" is nil")
        }
        ExprRow::Neg(a) => {
            out.extend(b"-")?;
            write_operand(program, 7, a, out)
        }
        ExprRow::Not(a) => {
            out.extend(b"not ")?;
            write_operand(program, 3, a, out)
        }
        ExprRow::Binary { op, left, right } => {
            write_operand(program, least_left(op), left, out)?;
            out.extend(op_bytes(op))?;
            write_operand(program, least_right(op), right, out)
        }
        ExprRow::Size(path) => {
            out.extend(b"size ")?;
            write_path(program, path, out)
        }
        ExprRow::At { path, index } => {
            write_path(program, path, out)?;
            write_index(program, index, out)
        }
    }
}

/// Appends an expression in brackets.
#[cycle(expression)]
pub fn write_index(program: &Program, e: u32, out: &mut ByteList) -> Result<(), Memory>
    requires { IsExprNumber program.now e }
    ensures { OnOk result (out.new
        ≡ out.old ++ (codes "[" ++ expr_text (expr_at program.now e) ++ codes "]")) }
{
    out.extend(b"[")?;
    write_expr(program, e, out)?;
    out.extend(b"]")
}

/// Appends an operand, in parentheses where its level is below the least that stands bare.
#[cycle(expression)]
fn write_operand(program: &Program, least: u8, e: u32, out: &mut ByteList) -> Result<(), Memory>
    requires { IsExprNumber program.now e }
    ensures { OnOk result (let a = expr_at program.now e in
        out.new ≡ out.old ++ operand least (level a) (expr_text a)) }
{
    if level_of(program, e) >= least {
        return write_expr(program, e, out);
    }
    out.extend(b"(")?;
    write_expr(program, e, out)?;
    out.extend(b")")
}
