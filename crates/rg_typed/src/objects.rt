//! Objects of a content against a program (docs/architecture.md, "Cargo").

ghost use Rattle.std.specs.Prelude.{◌≡◌, Some, IfSome};
ghost use Rattle.rg_tree.specs.Rows.RowTrees as rows;
ghost use Rattle.rg_tree.specs.Rows.RowsExist.{IsClassIn};
ghost use Rattle.rg_names.specs.TableOf.{IsTableOf};
ghost use Rattle.rg_typed.specs.Known.{AreFieldsOf};
ghost use Rattle.rg_typed.specs.Typed as typed;

use crate::fields::{elements_fit, fields_fit};
use rg_base::Label;
use rg_cown::{Cargo, CargoCell};
use rg_names::{Book, Classes};
use rg_tree::{ClassRow, Program};

// Whether a label is that of a window's temporaries.
#[inline(always)]
fn is_temp(label: Label) -> bool
    ensures { result ≡ typed.is_temp label }
{
    match label {
        Label::Region(_) | Label::Frozen => false,
        Label::Temp(_) => true,
    }
}

// Whether the values of an object are those of an object of a class.
#[inline(always)]
fn values_fit(book: &Book, cells: &[CargoCell], class: ClassRow, cell: &CargoCell) -> bool
    requires { IsClassIn book.now.program class }
    ensures { let t = book.now.program in let c = rows.class_of t class in
        result ≡ typed.values_fit (rows.classes_of t) cells.now cell.now.label c c.element
        cell.now.fields }
{
    let values = &cell.fields;
    match class.element {
        None => fields_fit(book, cells, cell.label, book.members_of(class), values),
        Some(element) => elements_fit(book, cells, cell.label, element, values),
    }
}

// Whether an object fits a program.
#[inline(never)]
fn cell_fits(book: &Book, cells: &[CargoCell], cell: &CargoCell) -> bool
    ensures { result ≡ typed.cell_fits (rows.classes_of book.now.program) cells.now cell.now }
{
    if is_temp(cell.label) {
        return false;
    }
    if cell.class >= book.class_count() {
        return false;
    }
    let class = book.class(cell.class);
    if class.is_tmp {
        return false;
    }
    values_fit(book, cells, class, cell)
}

// The members of an ordinary class, if it is there and isn't an array class.
#[inline]
fn fields_of<'a>(book: &Book<'a>, class: u32) -> Option<&'a [u32]>
    ensures { IfSome result (λ these. AreFieldsOf book.now.program class these.now) }
{
    if class >= book.class_count() {
        return None;
    }
    let row = book.class(class);
    if row.is_tmp {
        return None;
    }
    match row.element {
        None => Some(book.members_of(row)),
        Some(_) => None,
    }
}

// The same, where what is known of another class may serve.
#[inline(always)]
fn fields_for<'a>(
    book: &Book<'a>,
    known: u32,
    these: Option<&'a [u32]>,
    class: u32,
) -> Option<&'a [u32]>
    requires { IfSome these (λ k. AreFieldsOf book.now.program known k.now) }
    ensures { IfSome result (λ k. AreFieldsOf book.now.program class k.now) }
{
    if class == known {
        return these;
    }
    fields_of(book, class)
}

// Whether an object fits a program, where the fields of its class may be known.
#[inline(always)]
fn known_fits(book: &Book, cells: &[CargoCell], these: Option<&[u32]>, cell: &CargoCell) -> bool
    requires { IfSome these (λ k. AreFieldsOf book.now.program cell.now.class k.now) }
    ensures { result ≡ typed.cell_fits (rows.classes_of book.now.program) cells.now cell.now }
{
    let Some(these) = these else {
        return cell_fits(book, cells, cell);
    };
    if is_temp(cell.label) {
        return false;
    }
    fields_fit(book, cells, cell.label, these, &cell.fields)
}

/// Whether a content fits a program: `TypedCargo`. Each value is looked at once, and takes no
/// memory; the class of an object that has the class of the one before isn't looked up again.
#[inline(never)]
pub fn is_typed(cargo: &Cargo, program: &Program, classes: &Classes) -> bool
    requires { IsTableOf program.now classes.now }
    ensures { result ≡ typed.is_typed (rows.program_of program.now).classes cargo.now }
{
    let book = Book::new(program, classes);
    let cells = cargo.cells();
    let mut known = 0;
    let mut these = fields_of(&book, known);
    for cell in cells {
        these = fields_for(&book, known, these, cell.class);
        known = cell.class;
        if !known_fits(&book, cells, these, cell) {
            return false;
        }
    }
    true
}
