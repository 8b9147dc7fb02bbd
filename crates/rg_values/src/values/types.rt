//! Types as they are written, as the machine keeps them (docs/language.md, "Steps").

ghost use Rattle.std.specs.Prelude.{◌≡◌};
ghost use Rattle.rg_tree.specs.Rows.RowTrees.{classes_of, type_of as written};
ghost use Rattle.rg_tree.specs.Rows.RowsExist.{IsTypeIn};
ghost use Rattle.rg_rules.specs.Types.{type_of};

use rg_base::Ty;
use rg_names::Book;
use rg_tree::TypeRow;

/// The type of a row; a class that isn't there has the number of classes.
pub(crate) fn written_type(book: &Book, ty: TypeRow) -> Ty
    requires ty { IsTypeIn book.now.program ty }
    ensures { result ≡ type_of (classes_of book.now.program) (written book.now.program ty) }
{
    match ty {
        TypeRow::Int => Ty::Int,
        TypeRow::Bool => Ty::Bool,
        TypeRow::Ref { cap, name } => match book.class_of(name) {
            Some(class) => Ty::Ref { cap, class },
            None => Ty::Ref {
                cap,
                class: book.class_count(),
            },
        },
    }
}
