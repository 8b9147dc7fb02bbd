//! Names, paths and expressions of a raised program, as rows (docs/architecture.md, "Modules").

ghost use Rattle.std.specs.Prelude.{◌≡◌, ◌==◌, ◌&&◌, ℕ, List, ◌∷◌, decimal, map, IfOk};
ghost use Rattle.rg_tree.specs.Rows.Tables.{name_at};
ghost use Rattle.rg_tree.specs.Rows.RowTrees.{path_of, expr_of, variable_of};
ghost use Rattle.rg_tree.specs.Rows.RowsExist.{IsNameIn, IsPathIn, IsVariableIn};
ghost use Rattle.rg_tree.specs.Adds.{Extends, Adds};
ghost use Rattle.rg_verify_expressions.specs.Naming.{variable_in, field_name};
ghost use Rattle.rg_verify_expressions.specs.Raised.{path_named};
ghost use Rattle.rg_verify_expressions.specs.Rows.{AreNames};
ghost use Rattle.rg_verify_expressions.specs.Inner.Adds.{AddsTree};
ghost use Rattle.rg_verify_expressions.specs.Inner.Adds.{IsExprRow};

use crate::body::Body;
use itoa::Buffer;
use rg_base::{ByteList, Memory};
use rg_tree::{ExprRow, Path, Program};
use std::alloc::Global;

// The name that is a letter and a number.
fn name_text(alloc: Global, letter: u8, n: u32) -> Result<ByteList, Memory>
    ensures { IfOk result (λ text. text ≡ letter ∷ decimal n) }
{
    let mut text = ByteList::new(alloc);
    text.push(letter)?;
    text.extend(Buffer::new().format(n).as_bytes())?;
    Ok(text)
}

/// Adds the name that is a letter and a number.
pub fn add_name(alloc: Global, program: &mut Program, letter: u8, n: u32) -> Result<u32, Memory>
    ensures adds { IfOk result (λ k.
        Adds name_at IsNameIn program.old program.new k (letter ∷ decimal n)) }
    ensures grows { Extends program.old program.new }
{
    let text = name_text(alloc, letter, n)?;
    let number = program.add_name(text.bytes())?;
    Ok(number)
}

// Whether a slot holds `self`.
fn is_self(in_method: bool, slot: u32) -> bool
    ensures { result ≡ (in_method && (slot == 0)) }
{
    in_method && slot == 0
}

// Adds the variable of a slot.
fn add_base(body: Body, program: &mut Program, slot: u32) -> Result<Option<u32>, Memory>
    ensures adds { IfOk result (λ o.
        Adds variable_of IsVariableIn program.old program.new o (variable_in body.in_method slot)) }
    ensures grows { Extends program.old program.new }
{
    if is_self(body.in_method, slot) {
        return Ok(None);
    }
    let number = add_name(body.alloc, program, b'v', slot)?;
    Ok(Some(number))
}

/// Adds what a path needs, whose fields have these names.
pub fn path_row(
    body: Body,
    program: &mut Program,
    slot: u32,
    fields: &[u32],
) -> Result<Path, Memory>
    ensures adds { (ks : List ℕ) → AreNames program.old fields.now (map field_name ks) →
        IfOk result (λ p.
        Adds path_of IsPathIn program.old program.new p (path_named body.in_method slot ks)) }
    ensures grows { Extends program.old program.new }
{
    let base = add_base(body, program, slot)?;
    let fields = program.add_order(fields)?;
    Ok(Path { base, fields })
}

/// Adds an expression, whose names and operands are there.
pub(crate) fn put_expr(program: &mut Program, row: ExprRow) -> Result<u32, Memory>
    requires { IsExprRow program.old row }
    ensures adds { IfOk result (λ n.
        AddsTree program.old program.new n (expr_of program.old row)) }
    ensures grows { Extends program.old program.new }
{
    let number = program.add_expr(row)?;
    Ok(number)
}
