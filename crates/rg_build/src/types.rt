//! Types as they are written, and behind paths (docs/architecture.md, "Modules").

ghost use Rattle.std.specs.Prelude.{◌≡◌, All, IfSome, map, option_map};
ghost use Rattle.rg_base.specs.declared.words.Cap.TheVariants as cap;
ghost use Rattle.rg_base.specs.declared.ty.Ty.TheVariants as ty;
ghost use Rattle.rg_tree.specs.Rows.Tables.{name_at};
ghost use Rattle.rg_tree.specs.Rows.RowTrees as rows;
ghost use Rattle.rg_tree.specs.Rows.RowsExist.{IsNameIn, IsTypeIn};
ghost use Rattle.rg_rules.specs.Types as types;
ghost use Rattle.rg_code.specs.Lowering as lowering;
ghost use Rattle.rg_spell.specs.Spelling.{FitsTy, FitsResult};

use rg_base::{Cap, Ty};
use rg_names::Book;
use rg_tree::TypeRow;

// The number of the class of a name, or the number of classes.
fn class_number(book: &Book, name: u32) -> u32
    requires { IsNameIn book.now.program name }
    ensures { let t = book.now.program in
        result ≡ types.class_number (rows.classes_of t) (name_at t name) }
{
    match book.class_of(name) {
        Some(class) => class,
        None => book.class_count(),
    }
}

/// The type that is written so.
pub fn type_of(book: &Book, row: TypeRow) -> Ty
    requires { IsTypeIn book.now.program row }
    ensures { let t = book.now.program in
        result ≡ types.type_of (rows.classes_of t) (rows.type_of t row) }
{
    match row {
        TypeRow::Int => Ty::Int,
        TypeRow::Bool => Ty::Bool,
        TypeRow::Ref { cap, name } => Ty::Ref {
            cap,
            class: class_number(book, name),
        },
    }
}

/// The same of a type that needn't be there.
pub fn type_if(book: &Book, row: Option<TypeRow>) -> Option<Ty>
    requires { IfSome row (IsTypeIn book.now.program) }
    ensures is { let t = book.now.program in
        result ≡ option_map (types.type_of (rows.classes_of t)) (option_map (rows.type_of t) row) }
    ensures fits { FitsResult result }
{
    match row {
        None => None,
        Some(row) => {
            let found = type_of(book, row);
            fit(found);
            Some(found)
        }
    }
}

/// A type has a spelling: the number of its class does.
pub fn fit(found: Ty)
    ensures { FitsTy found }
{
    match found {
        Ty::Int => {}
        Ty::Bool => {}
        Ty::Ref { .. } => {}
    }
}

// The declared type of a field behind a type, and `int` where there is none.
fn type_behind(book: &Book, owner: Ty, name: u32) -> Ty
    requires { IsNameIn book.now.program name }
    ensures { let t = book.now.program in
        result ≡ lowering.type_behind (rows.classes_of t) owner (name_at t name) }
{
    match owner {
        Ty::Int => Ty::Int,
        Ty::Bool => Ty::Int,
        Ty::Ref { class, .. } => {
            if class >= book.class_count() {
                return Ty::Int;
            }
            match book.field(class, name) {
                Some(found) => found.ty,
                None => Ty::Int,
            }
        }
    }
}

/// The declared type behind fields.
pub fn type_along(book: &Book, owner: Ty, fields: &[u32]) -> Ty
    requires { All (IsNameIn book.now.program) fields.now }
    ensures { let t = book.now.program in result
        ≡ lowering.type_along (rows.classes_of t) owner (map (name_at t) fields.now) }
{
    let mut here = owner;
    for name in fields {
        here = type_behind(book, here, *name);
    }
    here
}

/// The type of the bridge of what a variable or a field of a type owns.
pub fn bridge_type(book: &Book, owner: Ty) -> Ty
    ensures { result
        ≡ ty.Ref cap.Mut (lowering.class_of (rows.classes_of book.now.program) owner) }
{
    let class = match owner {
        Ty::Int => book.class_count(),
        Ty::Bool => book.class_count(),
        Ty::Ref { class, .. } => class,
    };
    Ty::Ref {
        cap: Cap::Mut,
        class,
    }
}
