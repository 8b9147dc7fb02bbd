//! What expressions compute to (docs/language.md, "Steps").

ghost use Rattle.std.specs.Prelude.{◌≡◌};
ghost use Rattle.rg_tree.specs.Rows.RowTrees.{classes_of, expr_at};
ghost use Rattle.rg_tree.specs.Rows.RowsExist.{IsExprNumber};
ghost use Rattle.rg_rules.specs.Evaluation.{value_of};
ghost use Rattle.rg_store.specs.Shown.{AreOfClasses, store_of};
ghost use Rattle.rg_values.specs.Shown.{AreNamed, locals_of};

use crate::state::rows::LocalRow;
use crate::values::paths::path_value;
use rg_base::{Trap, Val};
use rg_names::Book;
use rg_store::{
    ObjectRow, as_bool, decides, element_value, is_nil, negative, object_place, operate,
};
use rg_tree::ExprRow;

/// The value of an expression.
pub fn value(book: &Book, store: &[ObjectRow], locals: &[LocalRow], e: u32) -> Result<Val, Trap>
    requires objects { AreOfClasses book.now.program store.now }
    requires named { AreNamed book.now.program locals.now }
    requires there { IsExprNumber book.now.program e }
    ensures { result ≡ value_of (classes_of book.now.program) (store_of store.now)
        (locals_of book.now.program locals.now) (expr_at book.now.program e) }
{
    match book.expr(e) {
        ExprRow::Int(z) => Ok(Val::Int(z)),
        ExprRow::Bool(b) => Ok(Val::Bool(b)),
        ExprRow::Nil => Ok(Val::Nil),
        ExprRow::Path(path) => path_value(book, store, locals, path),
        ExprRow::IsNil(path) => {
            let v = path_value(book, store, locals, path)?;
            Ok(Val::Bool(is_nil(v)))
        }
        ExprRow::Neg(a) => {
            let v = value(book, store, locals, a)?;
            negative(v)
        }
        ExprRow::Not(a) => {
            let v = value(book, store, locals, a)?;
            Ok(Val::Bool(!as_bool(v)))
        }
        ExprRow::Binary { op, left, right } => {
            let v = value(book, store, locals, left)?;
            if decides(op, v) {
                return Ok(Val::Bool(as_bool(v)));
            }
            let w = value(book, store, locals, right)?;
            operate(op, v, w)
        }
        ExprRow::Size(path) => {
            let v = path_value(book, store, locals, path)?;
            let place = object_place(store, v)?;
            Ok(Val::Int(store[place].fields.len() as i64))
        }
        ExprRow::At { path, index } => {
            let v = path_value(book, store, locals, path)?;
            let place = object_place(store, v)?;
            let array = &store[place];
            let i = value(book, store, locals, index)?;
            element_value(array, i)
        }
    }
}
