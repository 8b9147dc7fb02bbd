//! The code of right sides (docs/language.md, "Instructions and lowering").

ghost use Rattle.std.specs.Prelude.{◌≡◌, length, option_map, IfSome, OnOk};
ghost use Rattle.rg_tree.specs.Rows.Tables.{Tables};
ghost use Rattle.rg_tree.specs.Rows.RowTrees.{classes_of, expr_at, right_of};
ghost use Rattle.rg_tree.specs.Rows.RowsExist.{IsExprNumber, IsRightIn};
ghost use Rattle.rg_code.specs.Lowering.{above, new_code, pace_code, right_code};
ghost use Rattle.rg_lower.specs.Inner.Slots.{scope_of, AreHeldIn};
ghost use Rattle.rg_lower.specs.Inner.Emitted.{with_ops};

use crate::calls::write_call;
use crate::expressions::write_expr;
use crate::fields::class_number;
use crate::slots::Slots;
use crate::wholes::write_whole;
use crate::writer::Writer;
use rg_base::Memory;
use rg_code::Op;
use rg_names::Book;
use rg_tree::Right;

/// Appends the code of a right side.
pub fn write_right(
    book: &Book,
    slots: &Slots,
    right: Right,
    code: &mut Writer,
) -> Result<(), Memory>
    requires held { AreHeldIn book.now.program slots.now }
    requires right { IsRightIn book.now.program right }
    ensures { OnOk result (let t = book.now.program in code.new ≡ with_ops code.old
        (right_code (classes_of t) (scope_of t slots.now) (length code.old.ops)
        (right_of t right))) }
{
    match right {
        Right::Expr(e) => write_whole(book, slots, e, code),
        Right::New { name, size } => {
            let class = class_number(book, name);
            write_new(
                book,
                slots,
                Op::New { class },
                Op::NewArray { class },
                size,
                code,
            )
        }
        Right::NewTmp { name, size } => {
            let class = class_number(book, name);
            write_new(
                book,
                slots,
                Op::NewTmp { class },
                Op::NewTmpArray { class },
                size,
                code,
            )
        }
        Right::NewIso {
            name,
            size,
            manager,
        } => {
            let class = class_number(book, name);
            let object = Op::NewIso { class, manager };
            let array = Op::NewIsoArray { class, manager };
            write_new(book, slots, object, array, size, code)
        }
        Right::Freeze(name) => code.push(Op::Freeze {
            slot: slots.find(book, Some(name)).slot,
        }),
        Right::Merge(name) => code.push(Op::Merge {
            slot: slots.find(book, Some(name)).slot,
        }),
        Right::Read => code.push(Op::Read),
        Right::More => code.push(Op::More),
        Right::Call(call) => {
            write_call(book, slots, call, code)?;
            Ok(())
        }
    }
}

// Appends what makes an object, or a size and what makes an array.
fn write_new(
    book: &Book,
    slots: &Slots,
    object: Op,
    array: Op,
    size: Option<u32>,
    code: &mut Writer,
) -> Result<(), Memory>
    requires held { AreHeldIn book.now.program slots.now }
    requires size { IfSome size (IsExprNumber book.now.program) }
    requires object { above object ≡ 0 }
    requires array { above array ≡ 0 }
    ensures { OnOk result (let t = book.now.program in code.new ≡ with_ops code.old
        (new_code (classes_of t) (scope_of t slots.now) (length code.old.ops) object array
        (option_map (expr_at t) size))) }
{
    match size {
        None => code.push(object),
        Some(e) => {
            write_expr(book, slots, e, code)?;
            code.push(array)
        }
    }
}

/// Appends what comes last where a right side makes an object by `new C` or `new C [e]`.
pub fn write_pace(right: Right, code: &mut Writer) -> Result<(), Memory>
    ensures { OnOk result ((t : Tables)
        → code.new ≡ with_ops code.old (pace_code (right_of t right))) }
{
    match right {
        Right::New { .. } => code.push(Op::Pace),
        Right::Expr(_) => Ok(()),
        Right::NewTmp { .. } => Ok(()),
        Right::NewIso { .. } => Ok(()),
        Right::Freeze(_) => Ok(()),
        Right::Merge(_) => Ok(()),
        Right::Read => Ok(()),
        Right::More => Ok(()),
        Right::Call(_) => Ok(()),
    }
}
