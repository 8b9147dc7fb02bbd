//! Fields behind types, and types as they are written (docs/language.md, "Instructions and
//! lowering").

ghost use Rattle.std.specs.Prelude.{◌≡◌};
ghost use Rattle.rg_tree.specs.Rows.Tables.{name_at};
ghost use Rattle.rg_tree.specs.Rows.RowTrees as rows;
ghost use Rattle.rg_tree.specs.Rows.RowsExist.{IsNameIn, IsTypeIn};
ghost use Rattle.rg_rules.specs.Types as types;
ghost use Rattle.rg_rules.specs.Capabilities as capabilities;
ghost use Rattle.rg_code.specs.Lowering.{field_number, type_behind};

use rg_base::{Cap, Ty};
use rg_names::{Book, FieldAt};
use rg_tree::TypeRow;

/// A field behind a type: its number and its declared type; 0 and `int` where there is none.
pub fn field(book: &Book, ty: Ty, name: u32) -> FieldAt
    requires { IsNameIn book.now.program name }
    ensures index { let t = book.now.program in
        result.index ≡ field_number (rows.classes_of t) ty (name_at t name) }
    ensures ty { let t = book.now.program in
        result.ty ≡ type_behind (rows.classes_of t) ty (name_at t name) }
{
    let none = FieldAt {
        index: 0,
        ty: Ty::Int,
    };
    match ty {
        Ty::Int => none,
        Ty::Bool => none,
        Ty::Ref { class, .. } => {
            if class >= book.class_count() {
                return none;
            }
            match book.field(class, name) {
                Some(found) => found,
                None => none,
            }
        }
    }
}

/// The number of the class of a name, or the number of classes.
pub fn class_number(book: &Book, name: u32) -> u32
    requires { IsNameIn book.now.program name }
    ensures { let t = book.now.program in
        result ≡ types.class_number (rows.classes_of t) (name_at t name) }
{
    match book.class_of(name) {
        Some(class) => class,
        None => book.class_count(),
    }
}

/// The type that is written so.
pub fn type_of(book: &Book, ty: TypeRow) -> Ty
    requires { IsTypeIn book.now.program ty }
    ensures { let t = book.now.program in
        result ≡ types.type_of (rows.classes_of t) (rows.type_of t ty) }
{
    match ty {
        TypeRow::Int => Ty::Int,
        TypeRow::Bool => Ty::Bool,
        TypeRow::Ref { cap, name } => Ty::Ref {
            cap,
            class: class_number(book, name),
        },
    }
}

/// Whether a type is `iso`.
pub fn is_iso(ty: Ty) -> bool
    ensures { result ≡ capabilities.is_iso ty }
{
    match ty {
        Ty::Int | Ty::Bool => false,
        Ty::Ref { cap, .. } => cap == Cap::Iso,
    }
}
