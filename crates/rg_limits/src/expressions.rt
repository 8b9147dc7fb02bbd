//! The signs of expressions, counted down, with their brackets and numbers (docs/language.md,
//! "Limits"). Each function answers how many signs are left, and nothing where there are more than
//! that, where more brackets than may be are open in the text, or where a number is too small for a
//! source. Each call but those for a few operators in one another takes a sign or a bracket, so no
//! expression is followed further than there are signs and brackets.

ghost use Rattle.std.specs.Prelude.{◌≤◌, suc, length, map, nat_lt, option_map, option_to_list};
ghost use Rattle.std.specs.Prelude.{IfSome};
ghost use Rattle.std.specs.List.{AllByRecursion};
ghost use Rattle.rg_tree.specs.Canonical.{level};
ghost use Rattle.rg_tree.specs.Rows.RowTrees.{expr_at, right_of};
ghost use Rattle.rg_tree.specs.Rows.RowsExist.{IsExprNumber, IsRightIn, IsSpanBelow};
ghost use Rattle.rg_tree.specs.Rows.Tables.{numbers_in};
ghost use Rattle.rg_limits.specs.Each.{right_exprs};
ghost use Rattle.rg_limits.specs.Signs.{expr_signs, exprs_signs};
ghost use Rattle.rg_limits.specs.Numbers.{HasSmall};
ghost use Rattle.rg_limits.specs.Opens.{parens_opens, expr_opens, exprs_opens, index_opens};
ghost use Rattle.rg_limits.specs.Opens.{right_opens};
ghost use Rattle.rg_limits.specs.Inner.Counting.{Leaves};

use crate::operands::{least_left, least_right, level_of};
use rg_base::GREATEST_NUMBER;
use rg_tree::{ExprRow, Program, Right, Span};

/// The signs left behind an expression in which so many brackets may be open.
#[cycle(expression)]
pub fn left_behind(program: &Program, e: u32, room: usize, left: usize) -> Option<usize>
    requires { IsExprNumber program.now e }
    ensures { let a = expr_at program.now e in
        Leaves left (expr_signs a) (HasSmall a × (expr_opens a ≤ room)) result }
{
    match program.expr(e) {
        ExprRow::Int(z) => {
            if z.unsigned_abs() > GREATEST_NUMBER {
                return None;
            }
            Some(left)
        }
        ExprRow::Bool(_) | ExprRow::Nil => Some(left),
        ExprRow::Path(_) | ExprRow::IsNil(_) | ExprRow::Size(_) => Some(left),
        ExprRow::Neg(a) => left_in_operand(program, 7, a, room, left),
        ExprRow::Not(a) => left_in_operand(program, 3, a, room, left),
        ExprRow::At { index, .. } => left_in_brackets(program, index, room, left),
        ExprRow::Binary {
            op,
            left: first,
            right: second,
        } => {
            if left == 0 {
                return None;
            }
            let Some(rest) = left_in_operand(program, least_left(op), first, room, left - 1) else {
                return None;
            };
            left_in_operand(program, least_right(op), second, room, rest)
        }
    }
}

/// The signs left behind an expression in brackets.
#[cycle(expression)]
pub fn left_in_brackets(program: &Program, e: u32, room: usize, left: usize) -> Option<usize>
    requires { IsExprNumber program.now e }
    ensures { let a = expr_at program.now e in
        Leaves left (expr_signs a) (HasSmall a × (suc (expr_opens a) ≤ room)) result }
{
    if room == 0 {
        return None;
    }
    left_behind(program, e, room - 1, left)
}

// The signs left behind an operand, which is in parentheses where its level is below the least that
// stands bare.
#[cycle(expression)]
fn left_in_operand(program: &Program, least: u8, e: u32, room: usize, left: usize) -> Option<usize>
    requires { IsExprNumber program.now e }
    ensures { let a = expr_at program.now e in
        Leaves left (expr_signs a)
        (HasSmall a × (parens_opens (nat_lt (level a) least) (expr_opens a) ≤ room)) result }
{
    if level_of(program, e) >= least {
        return left_behind(program, e, room, left);
    }
    left_in_brackets(program, e, room, left)
}

/// The signs left behind arguments.
pub fn left_behind_args(program: &Program, args: Span, room: usize, left: usize) -> Option<usize>
    requires { IsSpanBelow program.now (length program.now.exprs) args }
    ensures { let es = map (expr_at program.now) (numbers_in program.now args) in
        Leaves left (exprs_signs es)
        (AllByRecursion HasSmall es × (suc (exprs_opens es) ≤ room)) result }
{
    if room == 0 {
        return None;
    }
    let mut rest = left;
    for arg in program.order(args) {
        let Some(behind) = left_behind(program, *arg, room - 1, rest) else {
            return None;
        };
        rest = behind;
    }
    Some(rest)
}

// The signs left behind a size, where there is one.
fn left_behind_size(program: &Program, size: Option<u32>, room: usize, left: usize) -> Option<usize>
    requires { IfSome size (IsExprNumber program.now) }
    ensures { let o = option_map (expr_at program.now) size in
        Leaves left (exprs_signs (option_to_list o))
        (AllByRecursion HasSmall (option_to_list o) × (index_opens o ≤ room)) result }
{
    match size {
        None => Some(left),
        Some(e) => left_in_brackets(program, e, room, left),
    }
}

/// The signs left behind a right side.
pub fn left_behind_right(program: &Program, right: Right, room: usize, left: usize) -> Option<usize>
    requires { IsRightIn program.now right }
    ensures { let r = right_of program.now right in
        Leaves left (exprs_signs (right_exprs r))
        (AllByRecursion HasSmall (right_exprs r) × (right_opens r ≤ room)) result }
{
    match right {
        Right::Expr(e) => left_behind(program, e, room, left),
        Right::New { size, .. } | Right::NewTmp { size, .. } | Right::NewIso { size, .. } => {
            left_behind_size(program, size, room, left)
        }
        Right::Freeze(_) | Right::Merge(_) | Right::Read | Right::More => Some(left),
        Right::Call(call) => left_behind_args(program, call.args, room, left),
    }
}
