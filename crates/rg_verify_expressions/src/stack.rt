//! A stack of trees, and what comes on it and is taken (docs/architecture.md, "Modules").

ghost use Rattle.std.specs.Prelude.{◌≡◌, ◌<◌, ℕ, Bool as Truth, List, [], ◌∷◌, ◌++◌, length};
ghost use Rattle.std.specs.Prelude.{false, Some, IfSome};
ghost use Rattle.rg_tree.specs.Rows.Tables.{Tables};
ghost use Rattle.rg_tree.specs.Rows.RowTrees.{expr_of};
ghost use Rattle.rg_tree.specs.Adds.{Extends};
ghost use Rattle.rg_verify_expressions.specs.Raised.{Raised, named, path};
ghost use Rattle.rg_verify_expressions.specs.Raising as raising;
ghost use Rattle.rg_verify_expressions.specs.Raising.{Item, tree, from_path, from_left, from_checked};
ghost use Rattle.rg_verify_expressions.specs.Raising.{from_index, from_place, front_in};
ghost use Rattle.rg_verify_expressions.specs.Inner.Adds.{IsExprRow};
ghost use Rattle.rg_verify_expressions.specs.Inner.Stacks.{IsFor, IsItem, Piled, IsPiled, Makes, MakesRow};
ghost use Rattle.rg_verify_expressions.specs.Inner.Stacks.{MakesFront, TakesChecked, TakesPlace};
ghost use Rattle.rg_verify_expressions.specs.Inner.Stacks.{TakesRow, waiting, TakesWait, Pushes};
ghost use Rattle.rg_verify_expressions.specs.Inner.Stacks.{TakesPath, is_path};
ghost use Rattle.rg_verify_expressions.specs.Inner.Unaries as unaries;

use crate::body::Body;
use crate::front::FrontRow;
use crate::held::{Held, Wait};
use crate::part::{Junction, operator_of};
use crate::refusal::Refusal;
use crate::rows::{add_name, path_row, put_expr};
use rg_tree::{ExprRow, Path, Program};

/// What is asked of a path.
#[derive(Clone, Copy)]
pub enum Query {
    /// whether it is nil
    IsNil,
    /// how many elements it has
    Size,
}

// The row of what is asked, over a path.
fn row_on(query: Query, path: Path) -> ExprRow
    ensures { result ≡ unaries.row_on query path }
{
    match query {
        Query::IsNil => ExprRow::IsNil(path),
        Query::Size => ExprRow::Size(path),
    }
}

/// Makes rows of what was held.
pub(crate) fn front_of(body: Body, program: &mut Program, held: Held) -> Result<FrontRow, Refusal>
    requires { IsItem program.old body.in_method held }
    ensures makes { (x : Item) → IsFor program.old body.in_method held x →
        MakesFront program.old program.new body.in_method (front_in x) result }
    ensures grows { Extends program.old program.new }
{
    match held {
        Held::Path { slot, fields } => {
            let Ok(path) = path_row(body, program, slot, fields.as_slice()) else {
                return Err(Refusal::Memory);
            };
            let Ok(row) = put_expr(program, ExprRow::Path(path)) else {
                return Err(Refusal::Memory);
            };
            Ok(FrontRow::Expression { row })
        }
        Held::Tree { row } => Ok(FrontRow::Expression { row }),
        Held::Checked { path } => Ok(FrontRow::Object { path }),
        Held::Indexed { path, index } => Ok(FrontRow::Place { path, index }),
        Held::Waits { .. } => Err(Refusal::NotRaised),
    }
}

// Makes a row of what was held, if it is a tree.
fn row_of(body: Body, program: &mut Program, held: Held) -> Result<u32, Refusal>
    requires { IsItem program.old body.in_method held }
    ensures makes { (x : Item) → IsFor program.old body.in_method held x →
        MakesRow program.old program.new body.in_method x result }
    ensures grows { Extends program.old program.new }
{
    let front = front_of(body, program, held)?;
    let FrontRow::Expression { row } = front else {
        return Err(Refusal::NotRaised);
    };
    Ok(row)
}

/// Takes the topmost tree, as a row.
pub(crate) fn take_row(
    body: Body,
    program: &mut Program,
    stack: &mut Vec<Held>,
) -> Result<u32, Refusal>
    requires { IsPiled program.old body.in_method stack.old.items }
    ensures takes { (items : List Item) → Piled program.old body.in_method stack.old.items items →
        TakesRow program.old program.new body.in_method stack.new.items items result }
    ensures grows { Extends program.old program.new }
{
    let Some(held) = stack.pop() else {
        return Err(Refusal::NotRaised);
    };
    let row = row_of(body, program, held)?;
    Ok(row)
}

// Takes the topmost path: its slot, and the names of its fields.
fn take_path(stack: &mut Vec<Held>) -> Result<(u32, Vec<u32>), Refusal>
    ensures { (t : Tables) (m : Truth) (items : List Item) → Piled t m stack.old.items items →
        TakesPath t m stack.new.items items result }
{
    let Some(held) = stack.pop() else {
        return Err(Refusal::NotRaised);
    };
    let Held::Path { slot, fields } = held else {
        return Err(Refusal::NotRaised);
    };
    Ok((slot, fields))
}

// Takes the topmost item, a path that was tested.
fn take_checked(stack: &mut Vec<Held>) -> Result<Path, Refusal>
    ensures { (t : Tables) (m : Truth) (items : List Item) → Piled t m stack.old.items items →
        TakesChecked t m stack.new.items items result }
{
    let Some(held) = stack.pop() else {
        return Err(Refusal::NotRaised);
    };
    let Held::Checked { path } = held else {
        return Err(Refusal::NotRaised);
    };
    Ok(path)
}

// Takes the topmost item, a place in an array: the path to the array, and the index.
fn take_place(stack: &mut Vec<Held>) -> Result<(Path, u32), Refusal>
    ensures { (t : Tables) (m : Truth) (items : List Item) → Piled t m stack.old.items items →
        TakesPlace t m stack.new.items items result }
{
    let Some(held) = stack.pop() else {
        return Err(Refusal::NotRaised);
    };
    let Held::Indexed { path, index } = held else {
        return Err(Refusal::NotRaised);
    };
    Ok((path, index))
}

// The left operand of a junction that is held.
fn wait_of(held: &Held) -> Option<Wait>
    ensures { result ≡ waiting held.now }
{
    match held {
        Held::Path { .. } | Held::Tree { .. } => None,
        Held::Checked { .. } | Held::Indexed { .. } => None,
        Held::Waits { wait } => Some(*wait),
    }
}

// Takes the left operand that waits on top for the right one, where that ends here.
fn take_wait(stack: &mut Vec<Held>, end: usize) -> Option<Wait>
    ensures takes { (t : Tables) (m : Truth) (items : List Item) →
        Piled t m stack.old.items items →
        TakesWait t m end stack.old.items stack.new.items items result }
    ensures shorter { IfSome result (λ w. length stack.new.items < length stack.old.items) }
{
    let Some(top) = stack.last() else {
        return None;
    };
    let Some(wait) = wait_of(top) else {
        return None;
    };
    if wait.to != end {
        return None;
    }
    stack.truncate(stack.len() - 1);
    Some(wait)
}

// Pushes what is held.
fn push(stack: &mut Vec<Held>, held: Held) -> Result<(), Refusal>
    ensures { Pushes stack.old.items stack.new.items held result }
{
    let Ok(()) = stack.push(held) else {
        return Err(Refusal::Memory);
    };
    Ok(())
}

// A tree whose code ends here comes on top: what waits for that end takes it.
fn settle(
    body: Body,
    program: &mut Program,
    stack: &mut Vec<Held>,
    end: usize,
    held: Held,
) -> Result<(), Refusal>
    requires pile { IsPiled program.old body.in_method stack.old.items }
    requires tree { (r : Raised) × IsFor program.old body.in_method held (tree r) }
    ensures makes { (items : List Item) (r : Raised) →
        Piled program.old body.in_method stack.old.items items →
        IsFor program.old body.in_method held (tree r) →
        Makes program.old program.new body.in_method stack.new.items result
        (Some (raising.settle end r items)) }
    ensures grows { Extends program.old program.new }
{
    let mut top = held;
    while let Some(wait) = take_wait(stack, end) {
        let right = row_of(body, program, top)?;
        let row = ExprRow::Binary {
            op: operator_of(wait.junction),
            left: wait.left,
            right,
        };
        let Ok(row) = put_expr(program, row) else {
            return Err(Refusal::Memory);
        };
        top = Held::Tree { row };
    }
    push(stack, top)
}

/// A tree comes, as this row.
pub(crate) fn put_tree(
    body: Body,
    program: &mut Program,
    stack: &mut Vec<Held>,
    end: usize,
    row: ExprRow,
) -> Result<(), Refusal>
    requires pile { IsPiled program.old body.in_method stack.old.items }
    requires row { IsExprRow program.old row }
    requires tree { (r : Raised) × (expr_of program.old row ≡ named body.in_method r) ×
        (is_path r ≡ false) }
    ensures makes { (items : List Item) (r : Raised) →
        Piled program.old body.in_method stack.old.items items →
        expr_of program.old row ≡ named body.in_method r → is_path r ≡ false →
        Makes program.old program.new body.in_method stack.new.items result
        (Some (raising.settle end r items)) }
    ensures grows { Extends program.old program.new }
{
    let Ok(row) = put_expr(program, row) else {
        return Err(Refusal::Memory);
    };
    settle(body, program, stack, end, Held::Tree { row })
}

/// A variable comes.
pub(crate) fn put_path(
    body: Body,
    program: &mut Program,
    stack: &mut Vec<Held>,
    end: usize,
    slot: u32,
) -> Result<(), Refusal>
    requires { IsPiled program.old body.in_method stack.old.items }
    ensures makes { (items : List Item) → Piled program.old body.in_method stack.old.items items →
        Makes program.old program.new body.in_method stack.new.items result
        (Some (raising.settle end (path slot []) items)) }
    ensures grows { Extends program.old program.new }
{
    let fields = Vec::new(body.alloc);
    settle(body, program, stack, end, Held::Path { slot, fields })
}

/// A path goes on by a field.
pub(crate) fn put_field(
    body: Body,
    program: &mut Program,
    stack: &mut Vec<Held>,
    end: usize,
    index: u32,
) -> Result<(), Refusal>
    requires { IsPiled program.old body.in_method stack.old.items }
    ensures makes { (items : List Item) → Piled program.old body.in_method stack.old.items items →
        Makes program.old program.new body.in_method stack.new.items result
        (from_path (λ s ks. path s (ks ++ index ∷ [])) end items) }
    ensures grows { Extends program.old program.new }
{
    let (slot, mut fields) = take_path(stack)?;
    let Ok(name) = add_name(body.alloc, program, b'f', index) else {
        return Err(Refusal::Memory);
    };
    let Ok(()) = fields.push(name) else {
        return Err(Refusal::Memory);
    };
    settle(body, program, stack, end, Held::Path { slot, fields })
}

/// Something is asked of a path.
pub(crate) fn put_query(
    body: Body,
    program: &mut Program,
    stack: &mut Vec<Held>,
    end: usize,
    query: Query,
) -> Result<(), Refusal>
    requires { IsPiled program.old body.in_method stack.old.items }
    ensures makes { (items : List Item) → Piled program.old body.in_method stack.old.items items →
        Makes program.old program.new body.in_method stack.new.items result
        (from_path (unaries.tree_on query) end items) }
    ensures grows { Extends program.old program.new }
{
    let (slot, fields) = take_path(stack)?;
    let Ok(path) = path_row(body, program, slot, fields.as_slice()) else {
        return Err(Refusal::Memory);
    };
    let Ok(row) = put_expr(program, row_on(query, path)) else {
        return Err(Refusal::Memory);
    };
    settle(body, program, stack, end, Held::Tree { row })
}

/// A path is tested for nil.
pub(crate) fn put_check(
    body: Body,
    program: &mut Program,
    stack: &mut Vec<Held>,
) -> Result<(), Refusal>
    requires { IsPiled program.old body.in_method stack.old.items }
    ensures makes { (items : List Item) → Piled program.old body.in_method stack.old.items items →
        Makes program.old program.new body.in_method stack.new.items result (from_checked items) }
    ensures grows { Extends program.old program.new }
{
    let (slot, fields) = take_path(stack)?;
    let Ok(path) = path_row(body, program, slot, fields.as_slice()) else {
        return Err(Refusal::Memory);
    };
    push(stack, Held::Checked { path })
}

/// An index of the array that was tested is tested.
pub(crate) fn put_bound(
    body: Body,
    program: &mut Program,
    stack: &mut Vec<Held>,
) -> Result<(), Refusal>
    requires { IsPiled program.old body.in_method stack.old.items }
    ensures makes { (items : List Item) → Piled program.old body.in_method stack.old.items items →
        Makes program.old program.new body.in_method stack.new.items result (from_index items) }
    ensures grows { Extends program.old program.new }
{
    let index = take_row(body, program, stack)?;
    let path = take_checked(stack)?;
    push(stack, Held::Indexed { path, index })
}

/// The element of a place comes.
pub(crate) fn put_element(
    body: Body,
    program: &mut Program,
    stack: &mut Vec<Held>,
    end: usize,
) -> Result<(), Refusal>
    requires { IsPiled program.old body.in_method stack.old.items }
    ensures makes { (items : List Item) → Piled program.old body.in_method stack.old.items items →
        Makes program.old program.new body.in_method stack.new.items result
        (from_place end items) }
    ensures grows { Extends program.old program.new }
{
    let (path, index) = take_place(stack)?;
    put_tree(body, program, stack, end, ExprRow::At { path, index })
}

/// The topmost tree waits for the right operand, which ends at an address.
pub(crate) fn put_wait(
    body: Body,
    program: &mut Program,
    stack: &mut Vec<Held>,
    junction: Junction,
    to: usize,
) -> Result<(), Refusal>
    requires { IsPiled program.old body.in_method stack.old.items }
    ensures makes { (items : List Item) → Piled program.old body.in_method stack.old.items items →
        Makes program.old program.new body.in_method stack.new.items result
        (from_left junction to items) }
    ensures grows { Extends program.old program.new }
{
    let left = take_row(body, program, stack)?;
    let wait = Wait { junction, left, to };
    push(stack, Held::Waits { wait })
}
