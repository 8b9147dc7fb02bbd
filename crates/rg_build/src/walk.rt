//! The walk along the statements of a body, which gives each mark its map (docs/architecture.md,
//! "Modules").

ghost use Rattle.std.specs.Prelude.{◌≡◌, ◌<◌, ◌++◌, ◌∷◌, [], true, IfSome, OnOk, length};
ghost use Rattle.rg_tree.specs.Rows.Tables.{Tables, name_at};
ghost use Rattle.rg_tree.specs.Rows.RowTrees.{block_of, classes_of, else_over, path_of, stmt_at};
ghost use Rattle.rg_tree.specs.Rows.RowsExist.{IsBlockIn, IsNameIn, IsPathIn};
ghost use Rattle.rg_code.specs.Lowering.{scope_inside};
ghost use Rattle.rg_build.specs.Maps.{block_maps, else_maps, end_maps, types_in};
ghost use Rattle.rg_build.specs.Inner.Slots.{scope_of, AreHeldIn, IsBehind};
ghost use Rattle.rg_build.specs.Inner.Laid.{maps_within, stmt_maps, IsOpen, Lays};

use crate::laying::Laying;
use crate::slots::Slots;
use crate::types::{bridge_type, type_along, type_of};
use rg_base::Memory;
use rg_names::Book;
use rg_tree::{Path, Span, StmtKind};

// The next mark gets the types of the variables.
fn put_types(slots: &Slots, laying: &mut Laying) -> Result<(), Memory>
    requires { IsOpen laying.old }
    ensures { OnOk result ((t : Tables) →
        Lays laying.old laying.new (types_in (scope_of t slots.now) ∷ [])) }
{
    let types = slots.types()?;
    laying.put(types)?;
    Ok(())
}

// The mark at the end of a block, if one stands there, gets the types of the variables.
fn put_end(held: &Slots, marked: bool, laying: &mut Laying) -> Result<(), Memory>
    requires { IsOpen laying.old }
    ensures { OnOk result ((t : Tables) →
        Lays laying.old laying.new (end_maps marked (scope_of t held.now))) }
{
    if !marked {
        return Ok(());
    }
    put_types(held, laying)?;
    Ok(())
}

// The marks of a statement get their maps.
#[cycle(statement)]
fn put_stmt(book: &Book, slots: &mut Slots, n: u32, laying: &mut Laying) -> Result<(), Memory>
    requires held { AreHeldIn book.now.program slots.old }
    requires n { n < length book.now.program.stmts }
    requires begun { IsOpen laying.old }
    ensures maps { OnOk result (let t = book.now.program in Lays laying.old laying.new
        (stmt_maps (classes_of t) (scope_of t slots.old) (stmt_at t n))) }
    ensures slots { OnOk result (let t = book.now.program in
        IsBehind t slots.old slots.new (stmt_at t n)) }
{
    put_types(slots, laying)?;
    put_inner(book, slots, n, laying)?;
    Ok(())
}

// The marks of the blocks of a statement get their maps, and what it declares has its slot then.
#[cycle(statement)]
fn put_inner(book: &Book, slots: &mut Slots, n: u32, laying: &mut Laying) -> Result<(), Memory>
    requires held { AreHeldIn book.now.program slots.old }
    requires n { n < length book.now.program.stmts }
    requires begun { IsOpen laying.old }
    ensures maps { OnOk result (let t = book.now.program in Lays laying.old laying.new
        (maps_within (classes_of t) (scope_of t slots.old) (stmt_at t n))) }
    ensures slots { OnOk result (let t = book.now.program in
        IsBehind t slots.old slots.new (stmt_at t n)) }
{
    match book.stmt(n).kind {
        StmtKind::Let { name, ty, .. } => slots.push(Some(name), type_of(book, ty)),
        StmtKind::If { yes, no, .. } => put_if(book, slots, yes, no, laying),
        StmtKind::While { body, .. } => put_while(book, slots, body, laying),
        StmtKind::Enter {
            path,
            name,
            body,
            ..
        } => put_window(book, slots, path, name, body, laying),
        StmtKind::Set { .. } | StmtKind::SetAt { .. } | StmtKind::Call(_) => Ok(()),
        StmtKind::Swap { .. } | StmtKind::Print(_) | StmtKind::Collect => Ok(()),
        StmtKind::Return(_) => Ok(()),
    }
}

// The marks of an `if` behind its own get their maps.
#[cycle(statement)]
fn put_if(
    book: &Book,
    slots: &mut Slots,
    yes: Span,
    no: Option<Span>,
    laying: &mut Laying,
) -> Result<(), Memory>
    requires held { AreHeldIn book.now.program slots.old }
    requires yes { IsBlockIn book.now.program yes }
    requires no { IfSome no (IsBlockIn book.now.program) }
    requires begun { IsOpen laying.old }
    ensures maps { OnOk result (let t = book.now.program in Lays laying.old laying.new
        (block_maps (classes_of t) true (scope_of t slots.old) (block_of t yes)
        ++ else_maps (classes_of t) (scope_of t slots.old) (else_over t (stmt_at t) no))) }
    ensures slots { OnOk result (slots.new ≡ slots.old) }
{
    put_block(book, slots, yes, true, laying)?;
    put_else(book, slots, no, laying)?;
    Ok(())
}

// The marks of the block of a `while` get their maps.
#[cycle(statement)]
fn put_while(book: &Book, slots: &mut Slots, body: Span, laying: &mut Laying) -> Result<(), Memory>
    requires held { AreHeldIn book.now.program slots.old }
    requires body { IsBlockIn book.now.program body }
    requires begun { IsOpen laying.old }
    ensures maps { OnOk result (let t = book.now.program in Lays laying.old laying.new
        (block_maps (classes_of t) true (scope_of t slots.old) (block_of t body))) }
    ensures slots { OnOk result (slots.new ≡ slots.old) }
{
    put_block(book, slots, body, true, laying)
}

// The marks of what stands behind the first block of an `if` get their maps.
#[cycle(statement)]
fn put_else(
    book: &Book,
    slots: &mut Slots,
    no: Option<Span>,
    laying: &mut Laying,
) -> Result<(), Memory>
    requires held { AreHeldIn book.now.program slots.old }
    requires no { IfSome no (IsBlockIn book.now.program) }
    requires begun { IsOpen laying.old }
    ensures maps { OnOk result (let t = book.now.program in Lays laying.old laying.new
        (else_maps (classes_of t) (scope_of t slots.old) (else_over t (stmt_at t) no))) }
    ensures slots { OnOk result (slots.new ≡ slots.old) }
{
    match no {
        None => Ok(()),
        Some(span) => put_block(book, slots, span, true, laying),
    }
}

// The marks of the block of an `enter` get their maps.
#[cycle(statement)]
fn put_window(
    book: &Book,
    slots: &mut Slots,
    path: Path,
    name: u32,
    body: Span,
    laying: &mut Laying,
) -> Result<(), Memory>
    requires held { AreHeldIn book.now.program slots.old }
    requires path { IsPathIn book.now.program path }
    requires name { IsNameIn book.now.program name }
    requires body { IsBlockIn book.now.program body }
    requires begun { IsOpen laying.old }
    ensures maps { OnOk result (let t = book.now.program in Lays laying.old laying.new
        (block_maps (classes_of t) true (scope_inside (classes_of t) (scope_of t slots.old)
        (path_of t path) (name_at t name)) (block_of t body))) }
    ensures slots { OnOk result (slots.new ≡ slots.old) }
{
    let first = slots.count();
    let owner = type_along(book, slots.find(book, path.base), book.order(path.fields));
    slots.push(Some(name), bridge_type(book, owner))?;
    put_block(book, slots, body, true, laying)?;
    slots.keep(first);
    Ok(())
}

/// The marks of a block get their maps. Its variables are gone then.
#[cycle(statement)]
pub fn put_block(
    book: &Book,
    slots: &mut Slots,
    block: Span,
    marked: bool,
    laying: &mut Laying,
) -> Result<(), Memory>
    requires held { AreHeldIn book.now.program slots.old }
    requires block { IsBlockIn book.now.program block }
    requires begun { IsOpen laying.old }
    ensures maps { OnOk result (let t = book.now.program in Lays laying.old laying.new
        (block_maps (classes_of t) marked (scope_of t slots.old) (block_of t block))) }
    ensures slots { OnOk result (slots.new ≡ slots.old) }
{
    let first = slots.count();
    let these = book.order(block);
    for n in these {
        put_stmt(book, slots, *n, laying)?;
    }
    put_end(slots, marked, laying)?;
    slots.keep(first);
    Ok(())
}
