//! Expressions that are raised from their code (docs/architecture.md, "Modules").

ghost use Rattle.std.specs.Prelude.{◌≡◌, ◌≤◌, List, [], length, drop, OnErr};
ghost use Rattle.rg_verify_expressions.specs.Raising as raising;
ghost use Rattle.rg_verify_expressions.specs.Raising.{Item};
ghost use Rattle.rg_verify_expressions.specs.Inner.Stacks.{Piled, IsPiled, Makes, Walks, MakesFronts};
ghost use Rattle.rg_verify_expressions.specs.Inner.Unaries.{row_over, tree_over};
ghost use Rattle.rg_tree.specs.Adds.{Extends};
ghost use Rattle.rg_verify_expressions.specs.Raises.{RaisesAll};

use crate::body::Body;
use crate::front::FrontRow;
use crate::held::Held;
use crate::part::{Part, part_of};
use crate::refusal::Refusal;
use crate::stack::{
    Query, front_of, put_bound, put_check, put_element, put_field, put_path, put_query, put_tree,
    put_wait, take_row,
};
use rg_code::CodeList;
use rg_tree::{BinOp, ExprRow, Program};
use std::alloc::Global;

/// An operator of one operand.
#[derive(Clone, Copy)]
pub enum Unary {
    /// `-`
    Neg,
    /// `not`
    Not,
}

// The row of an operator, over that of its operand.
fn row_over(unary: Unary, a: u32) -> ExprRow
    ensures { result ≡ row_over unary a }
{
    match unary {
        Unary::Neg => ExprRow::Neg(a),
        Unary::Not => ExprRow::Not(a),
    }
}

// An operator over the topmost tree.
fn put_unary(
    body: Body,
    program: &mut Program,
    stack: &mut Vec<Held>,
    end: usize,
    unary: Unary,
) -> Result<(), Refusal>
    requires { IsPiled program.old body.in_method stack.old.items }
    ensures makes { (items : List Item) → Piled program.old body.in_method stack.old.items items →
        Makes program.old program.new body.in_method stack.new.items result
        (raising.from_tree (tree_over unary) end items) }
    ensures grows { Extends program.old program.new }
{
    let a = take_row(body, program, stack)?;
    put_tree(body, program, stack, end, row_over(unary, a))
}

// An operator between the two topmost trees.
fn put_operator(
    body: Body,
    program: &mut Program,
    stack: &mut Vec<Held>,
    end: usize,
    op: BinOp,
) -> Result<(), Refusal>
    requires { IsPiled program.old body.in_method stack.old.items }
    ensures makes { (items : List Item) → Piled program.old body.in_method stack.old.items items →
        Makes program.old program.new body.in_method stack.new.items result
        (raising.from_two op end items) }
    ensures grows { Extends program.old program.new }
{
    let right = take_row(body, program, stack)?;
    let left = take_row(body, program, stack)?;
    let row = ExprRow::Binary { op, left, right };
    put_tree(body, program, stack, end, row)
}

// What an instruction that ends here makes of the stack.
fn act(
    body: Body,
    program: &mut Program,
    stack: &mut Vec<Held>,
    end: usize,
    part: Part,
) -> Result<(), Refusal>
    requires { IsPiled program.old body.in_method stack.old.items }
    ensures makes { (items : List Item) → Piled program.old body.in_method stack.old.items items →
        Makes program.old program.new body.in_method stack.new.items result
        (raising.act part end items) }
    ensures grows { Extends program.old program.new }
{
    match part {
        Part::Int { value } => put_tree(body, program, stack, end, ExprRow::Int(value)),
        Part::Bool { value } => put_tree(body, program, stack, end, ExprRow::Bool(value)),
        Part::Nil => put_tree(body, program, stack, end, ExprRow::Nil),
        Part::Load { slot } => put_path(body, program, stack, end, slot),
        Part::Field { index } => put_field(body, program, stack, end, index),
        Part::IsNil => put_query(body, program, stack, end, Query::IsNil),
        Part::Size => put_query(body, program, stack, end, Query::Size),
        Part::Check => put_check(body, program, stack),
        Part::Bound => put_bound(body, program, stack),
        Part::Element => put_element(body, program, stack, end),
        Part::Neg => put_unary(body, program, stack, end, Unary::Neg),
        Part::Not => put_unary(body, program, stack, end, Unary::Not),
        Part::Operator { op } => put_operator(body, program, stack, end, op),
        Part::Between { junction, to } => put_wait(body, program, stack, junction, to),
    }
}

// Along the code, up to the first instruction that no expression has: the stack there, and its
// address.
fn walk(
    body: Body,
    program: &mut Program,
    code: &CodeList,
    from: usize,
) -> Result<(Vec<Held>, usize), Refusal>
    requires { from ≤ length code.now.ops }
    ensures walks { Walks program.old program.new body.in_method
        (raising.walk (drop from code.now.ops) from []) result }
    ensures grows { Extends program.old program.new }
{
    let mut stack = Vec::new(body.alloc);
    let mut at = from;
    while at < code.len() {
        let Some(part) = part_of(code.get(at)) else {
            return Ok((stack, at));
        };
        at += 1;
        act(body, program, &mut stack, at, part)?;
    }
    Ok((stack, at))
}

// The fronts of the stack, as rows in order.
fn take_rows(
    body: Body,
    program: &mut Program,
    stack: &mut Vec<Held>,
) -> Result<Vec<FrontRow>, Refusal>
    requires { IsPiled program.old body.in_method stack.old.items }
    ensures makes { (items : List Item) → Piled program.old body.in_method stack.old.items items →
        MakesFronts program.old program.new body.in_method (raising.fronts items []) result }
    ensures grows { Extends program.old program.new }
{
    let mut rows = Vec::new(body.alloc);
    while let Some(held) = stack.pop() {
        let row = front_of(body, program, held)?;
        let Ok(()) = rows.push(row) else {
            return Err(Refusal::Memory);
        };
    }
    rows.reverse();
    Ok(rows)
}

/// What code begins with at an address, as rows in order, up to an instruction that no expression
/// has: expressions, objects and places in arrays; and the address of that instruction. Where it is
/// refused, the program has at most grown: all that was there stands for the same. The stack of
/// trees is the only memory that it takes beside the program's, and nothing recurses.
pub fn raise_expressions(
    alloc: Global,
    program: &mut Program,
    in_method: bool,
    code: &CodeList,
    at: usize,
) -> Result<(Vec<FrontRow>, usize), Refusal>
    requires { at ≤ length code.now.ops }
    ensures raises { RaisesAll program.old program.new in_method (drop at code.now.ops) at result }
    ensures err { OnErr result (Extends program.old program.new) }
{
    let body = Body { alloc, in_method };
    let (mut stack, end) = walk(body, program, code, at)?;
    let rows = take_rows(body, program, &mut stack)?;
    Ok((rows, end))
}
