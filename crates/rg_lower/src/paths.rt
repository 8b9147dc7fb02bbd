//! The code of paths (docs/language.md, "Instructions and lowering").

ghost use Rattle.std.specs.Prelude.{◌≡◌, All, map, IfOk, IfSome, OnOk};
ghost use Rattle.rg_tree.specs.Rows.Tables.{name_at};
ghost use Rattle.rg_tree.specs.Rows.RowTrees.{classes_of, path_of};
ghost use Rattle.rg_tree.specs.Rows.RowsExist.{IsNameIn, IsPathIn};
ghost use Rattle.rg_code.specs.Lowering.{fields_code, path_code, type_along, type_in};
ghost use Rattle.rg_lower.specs.Inner.Slots.{scope_of, variable_of, AreHeldIn};
ghost use Rattle.rg_lower.specs.Inner.Emitted.{with_ops};

use crate::fields::field;
use crate::slots::Slots;
use crate::writer::Writer;
use rg_base::{Memory, Ty};
use rg_code::Op;
use rg_names::Book;
use rg_tree::Path;

/// Appends the code of a walk from a variable through fields; the type behind them.
pub fn write_walk(
    book: &Book,
    slots: &Slots,
    base: Option<u32>,
    fields: &[u32],
    code: &mut Writer,
) -> Result<Ty, Memory>
    requires held { AreHeldIn book.now.program slots.now }
    requires base { IfSome base (IsNameIn book.now.program) }
    requires fields { All (IsNameIn book.now.program) fields.now }
    ensures code { OnOk result (let t = book.now.program in code.new ≡ with_ops code.old
        (path_code (classes_of t) (scope_of t slots.now) (variable_of t base)
        (map (name_at t) fields.now))) }
    ensures ty { IfOk result (λ ty. let t = book.now.program in ty ≡ type_along (classes_of t)
        (type_in (scope_of t slots.now) (variable_of t base)) (map (name_at t) fields.now)) }
{
    let found = slots.find(book, base);
    code.push(Op::Load { slot: found.slot })?;
    write_fields(book, found.ty, fields, code)
}

// Appends the code of fields, one behind the other; the type behind them.
fn write_fields(book: &Book, ty: Ty, fields: &[u32], code: &mut Writer) -> Result<Ty, Memory>
    requires { All (IsNameIn book.now.program) fields.now }
    ensures code { OnOk result (let t = book.now.program in code.new ≡ with_ops code.old
        (fields_code (classes_of t) ty (map (name_at t) fields.now))) }
    ensures ty { IfOk result (λ end. let t = book.now.program in
        end ≡ type_along (classes_of t) ty (map (name_at t) fields.now)) }
{
    let mut here = ty;
    for name in fields {
        let found = field(book, here, *name);
        code.push(Op::Field { index: found.index })?;
        here = found.ty;
    }
    Ok(here)
}

/// Appends the code of a path; the type of what it leads to.
pub fn write_path(book: &Book, slots: &Slots, path: Path, code: &mut Writer) -> Result<Ty, Memory>
    requires held { AreHeldIn book.now.program slots.now }
    requires path { IsPathIn book.now.program path }
    ensures code { OnOk result (let t = book.now.program in let p = path_of t path in code.new
        ≡ with_ops code.old (path_code (classes_of t) (scope_of t slots.now) p.base p.fields)) }
    ensures ty { IfOk result (λ ty. let t = book.now.program in let p = path_of t path in
        ty ≡ type_along (classes_of t) (type_in (scope_of t slots.now) p.base) p.fields) }
{
    let fields = book.order(path.fields);
    write_walk(book, slots, path.base, fields, code)
}
