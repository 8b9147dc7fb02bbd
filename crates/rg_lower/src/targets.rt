//! The code of what is declared, written and exchanged (docs/language.md, "Instructions and
//! lowering").

ghost use Rattle.std.specs.Prelude.{◌≡◌, ◌<◌, ◌++◌, [], ◌∷◌, length, OnOk, IfSome, Some};
ghost use Rattle.rg_base.specs.declared.limits.TheConstants.{BODY_NAMES};
ghost use Rattle.rg_tree.specs.Rows.Tables.{name_at};
ghost use Rattle.rg_tree.specs.Rows.RowTrees.{classes_of, expr_at, path_of, right_of, type_of};
ghost use Rattle.rg_tree.specs.Rows.RowsExist.{IsExprNumber, IsNameIn, IsPathIn, IsRightIn};
ghost use Rattle.rg_tree.specs.Rows.RowsExist.{IsTypeIn};
ghost use Rattle.rg_rules.specs.Types as types;
ghost use Rattle.rg_code.specs.Lowering.{assign_code, assign_element_code, assign_op};
ghost use Rattle.rg_code.specs.Lowering.{pace_code, right_code, swap_code};
ghost use Rattle.rg_code.specs.declared.op.Op.TheVariants as i;
ghost use Rattle.rg_lower.specs.Inner.Slots.{scope_of, variable_of, AreHeldIn};
ghost use Rattle.rg_lower.specs.Inner.Emitted.{with_ops};

use crate::expressions::write_index;
use crate::fields::{is_iso, type_of};
use crate::holders::write_holder;
use crate::rights::{write_pace, write_right};
use crate::slots::Slots;
use crate::writer::Writer;
use rg_base::Memory;
use rg_code::Op;
use rg_names::Book;
use rg_tree::{Path, Right, TypeRow};

/// Appends the code of `let x: T = r` behind its mark; x has the next slot.
pub fn write_let(
    book: &Book,
    slots: &mut Slots,
    name: u32,
    ty: TypeRow,
    right: Right,
    code: &mut Writer,
) -> Result<(), Memory>
    requires held { AreHeldIn book.now.program slots.old }
    requires name { IsNameIn book.now.program name }
    requires ty { IsTypeIn book.now.program ty }
    requires right { IsRightIn book.now.program right }
    requires room { length slots.old < BODY_NAMES }
    ensures code { OnOk result (let t = book.now.program in let r = right_of t right in
        code.new ≡ with_ops code.old
        (right_code (classes_of t) (scope_of t slots.old) (length code.old.ops) r
        ++ i.Store (length (scope_of t slots.old)) ∷ pace_code r)) }
    ensures slots { OnOk result (let t = book.now.program in
        slots.new ≡ slots.old ++ record {
          name = Some name;
          ty = types.type_of (classes_of t) (type_of t ty);
        } ∷ []) }
{
    write_right(book, slots, right, code)?;
    code.push(Op::Store { slot: slots.next() })?;
    write_pace(right, code)?;
    slots.push(Some(name), type_of(book, ty))
}

/// Appends the code of `x = r` or `q.f = r` behind its mark.
pub fn write_assign(
    book: &Book,
    slots: &Slots,
    path: Path,
    right: Right,
    code: &mut Writer,
) -> Result<(), Memory>
    requires held { AreHeldIn book.now.program slots.now }
    requires path { IsPathIn book.now.program path }
    requires right { IsRightIn book.now.program right }
    ensures { OnOk result (let t = book.now.program in let p = path_of t path in code.new
        ≡ with_ops code.old (assign_code (classes_of t) (scope_of t slots.now)
        (length code.old.ops) p.base p.fields (right_of t right))) }
{
    match write_holder(book, slots, path, code)? {
        None => {
            write_right(book, slots, right, code)?;
            write_store(book, slots, path.base, code)?;
            write_pace(right, code)
        }
        Some(found) => {
            code.push(Op::Check)?;
            write_right(book, slots, right, code)?;
            code.push(Op::Put { index: found.index })?;
            write_pace(right, code)
        }
    }
}

/// Appends the code of `q[e] = r` behind its mark.
pub fn write_assign_element(
    book: &Book,
    slots: &Slots,
    path: Path,
    index: u32,
    right: Right,
    code: &mut Writer,
) -> Result<(), Memory>
    requires held { AreHeldIn book.now.program slots.now }
    requires path { IsPathIn book.now.program path }
    requires index { IsExprNumber book.now.program index }
    requires right { IsRightIn book.now.program right }
    ensures { OnOk result (let t = book.now.program in code.new ≡ with_ops code.old
        (assign_element_code (classes_of t) (scope_of t slots.now) (length code.old.ops)
        (path_of t path) (expr_at t index) (right_of t right))) }
{
    write_index(book, slots, path, index, code)?;
    write_right(book, slots, right, code)?;
    code.push(Op::PutElement)?;
    write_pace(right, code)
}

// Stores into the slot of a variable that is there.
fn write_store(
    book: &Book,
    slots: &Slots,
    base: Option<u32>,
    code: &mut Writer,
) -> Result<(), Memory>
    requires held { AreHeldIn book.now.program slots.now }
    requires base { IfSome base (IsNameIn book.now.program) }
    ensures { OnOk result (let t = book.now.program in code.new ≡ with_ops code.old
        (assign_op (scope_of t slots.now) (variable_of t base) ∷ [])) }
{
    let found = slots.find(book, base);
    if is_iso(found.ty) {
        return code.push(Op::Own { slot: found.slot });
    }
    code.push(Op::Store { slot: found.slot })
}

/// Appends the code of `swap y, q.f` behind its mark.
pub fn write_swap(
    book: &Book,
    slots: &Slots,
    name: u32,
    path: Path,
    code: &mut Writer,
) -> Result<(), Memory>
    requires held { AreHeldIn book.now.program slots.now }
    requires name { IsNameIn book.now.program name }
    requires path { IsPathIn book.now.program path }
    ensures { OnOk result (let t = book.now.program in let p = path_of t path in code.new
        ≡ with_ops code.old (swap_code (classes_of t) (scope_of t slots.now) (name_at t name)
        p.base p.fields)) }
{
    match write_holder(book, slots, path, code)? {
        None => Ok(()),
        Some(found) => {
            code.push(Op::Check)?;
            code.push(Op::Swap {
                slot: slots.find(book, Some(name)).slot,
                index: found.index,
            })
        }
    }
}
