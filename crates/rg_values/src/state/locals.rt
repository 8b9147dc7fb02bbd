//! The variables of a frame, found by the numbers of their names. A body has at most 256 names, so
//! that no search is longer (docs/language.md, "Steps").

ghost use Rattle.std.specs.Prelude.{◌≡◌, IfSome, option_map, slice_get, take};
ghost use Rattle.rg_tree.specs.Rows.RowsExist.{IsNameIn};
ghost use Rattle.rg_tree.specs.Rows.Tables.{name_at};
ghost use Rattle.rg_rules.specs.Capabilities.{is_iso};
ghost use Rattle.rg_rules.specs.Environment.{same_variable};
ghost use Rattle.rg_rules.specs.Evaluation.{is_iso_local};
ghost use Rattle.rg_rules.specs.State.{place_in, set_at, set_in, value_in};
ghost use Rattle.rg_values.specs.Shown.{AreNamed, locals_of};

use crate::state::rows::LocalRow;
use rg_base::{Cap, Ty, Val};
use rg_names::Book;

/// Whether two names are one.
fn is_same(book: &Book, a: Option<u32>, b: Option<u32>) -> bool
    requires a { IfSome a (IsNameIn book.now.program) }
    requires b { IfSome b (IsNameIn book.now.program) }
    ensures { result ≡ same_variable (option_map (name_at book.now.program) a)
        (option_map (name_at book.now.program) b) }
{
    match (a, b) {
        (None, None) => true,
        (Some(x), Some(y)) => book.is_same(x, y),
        (None, Some(_)) | (Some(_), None) => false,
    }
}

/// The place of the variable of a name, or the number of variables where there is none.
pub fn place(book: &Book, locals: &[LocalRow], name: Option<u32>) -> usize
    requires named { AreNamed book.now.program locals.now }
    requires name { IfSome name (IsNameIn book.now.program) }
    ensures { result ≡ place_in (locals_of book.now.program locals.now)
        (option_map (name_at book.now.program) name) }
{
    for (i, local) in locals.iter().enumerate() {
        if is_same(book, local.name, name) {
            return i;
        }
    }
    locals.len()
}

/// The variable at a place, if there is one.
fn local_at(locals: &[LocalRow], place: usize) -> Option<LocalRow>
    ensures { result ≡ slice_get locals.now place }
{
    locals.get(place).copied()
}

/// The value of the variable of a name, or nil where there is none.
pub fn variable(book: &Book, locals: &[LocalRow], name: Option<u32>) -> Val
    requires named { AreNamed book.now.program locals.now }
    requires name { IfSome name (IsNameIn book.now.program) }
    ensures { result ≡ value_in (locals_of book.now.program locals.now) (option_map (name_at
        book.now.program) name) }
{
    match local_at(locals, place(book, locals, name)) {
        Some(local) => local.value,
        None => Val::Nil,
    }
}

/// Whether a type is `iso`.
pub(crate) fn is_iso_type(ty: Ty) -> bool
    ensures { result ≡ is_iso ty }
{
    match ty {
        Ty::Ref { cap, .. } => match cap {
            Cap::Iso => true,
            Cap::Mut | Cap::Tmp | Cap::Paused | Cap::Imm => false,
        },
        Ty::Int | Ty::Bool => false,
    }
}

/// Whether the variable of a name is declared `iso`.
pub(crate) fn is_iso(book: &Book, locals: &[LocalRow], name: Option<u32>) -> bool
    requires named { AreNamed book.now.program locals.now }
    requires name { IfSome name (IsNameIn book.now.program) }
    ensures { result ≡ is_iso_local (locals_of book.now.program locals.now) (option_map (name_at
        book.now.program) name) }
{
    match local_at(locals, place(book, locals, name)) {
        Some(local) => is_iso_type(local.ty),
        None => false,
    }
}

/// Writes the variable at a place, where there is one.
pub(crate) fn set_at(book: &Book, locals: &mut [LocalRow], place: usize, value: Val)
    requires named { AreNamed book.now.program locals.old }
    ensures set { locals_of book.now.program locals.new
        ≡ set_at place value (locals_of book.now.program locals.old) }
    ensures named { AreNamed book.now.program locals.new }
{
    if place < locals.len() {
        let LocalRow { name, ty, .. } = locals[place];
        locals[place] = LocalRow { name, ty, value };
    }
}

/// Writes the variable of a name, where there is one.
pub fn set(book: &Book, locals: &mut [LocalRow], name: Option<u32>, value: Val)
    requires named { AreNamed book.now.program locals.old }
    requires name { IfSome name (IsNameIn book.now.program) }
    ensures set { locals_of book.now.program locals.new ≡ set_in (option_map (name_at
        book.now.program) name) value (locals_of book.now.program locals.old) }
    ensures named { AreNamed book.now.program locals.new }
{
    let k = place(book, locals, name);
    set_at(book, locals, k, value);
}

/// Keeps the first so many variables.
pub fn keep(book: &Book, locals: &mut Vec<LocalRow>, kept: usize)
    requires named { AreNamed book.now.program locals.old.items }
    ensures kept { locals_of book.now.program locals.new.items
        ≡ take kept (locals_of book.now.program locals.old.items) }
    ensures named { AreNamed book.now.program locals.new.items }
{
    locals.truncate(kept);
}
