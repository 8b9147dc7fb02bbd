//! The code of calls (docs/language.md, "Instructions and lowering").

ghost use Rattle.std.specs.Prelude.{◌≡◌, ◌<◌, ◌++◌, All, map, length, IfOk, OnOk};
ghost use Rattle.rg_tree.specs.Rows.Tables.{name_at};
ghost use Rattle.rg_tree.specs.Rows.RowTrees.{call_of, classes_of, expr_at};
ghost use Rattle.rg_tree.specs.Rows.RowsExist.{IsCallIn, IsNameIn};
ghost use Rattle.rg_code.specs.Lowering.{call_code, call_result, class_of, clears, dropped_code};
ghost use Rattle.rg_code.specs.Lowering.{exprs_code, used_by_all};
ghost use Rattle.rg_lower.specs.Inner.Slots.{scope_of, AreHeldIn};
ghost use Rattle.rg_lower.specs.Inner.Emitted.{with_ops, CalleeIs};

use crate::expressions::write_expr;
use crate::fields::is_iso;
use crate::paths::write_path;
use crate::slots::Slots;
use crate::uses::clear_used;
use crate::writer::Writer;
use rg_base::{Memory, Ty};
use rg_code::Op;
use rg_names::{Book, Sig};
use rg_tree::CallRow;

/// Appends the code of a call; the type of its result.
pub fn write_call(
    book: &Book,
    slots: &Slots,
    call: CallRow,
    code: &mut Writer,
) -> Result<Option<Ty>, Memory>
    requires held { AreHeldIn book.now.program slots.now }
    requires call { IsCallIn book.now.program call }
    ensures code { OnOk result (let t = book.now.program in code.new ≡ with_ops code.old
        (call_code (classes_of t) (scope_of t slots.now) (length code.old.ops) (call_of t call))) }
    ensures given { IfOk result (λ ty. let t = book.now.program in
        ty ≡ call_result (classes_of t) (scope_of t slots.now) (call_of t call)) }
{
    let ty = write_path(book, slots, call.path, code)?;
    code.push(Op::Check)?;
    let args = book.order(call.args);
    write_args(book, slots, args, code)?;
    code.push(Op::Room)?;
    clear_args(book, slots, args, code)?;
    match callee(book, ty, call.method) {
        Some(sig) => {
            code.push(Op::Call { method: sig.number })?;
            Ok(sig.result)
        }
        None => {
            code.push(Op::Call { method: 0 })?;
            Ok(None)
        }
    }
}

/// Appends the code of a call whose result nothing takes.
pub fn write_alone(
    book: &Book,
    slots: &Slots,
    call: CallRow,
    code: &mut Writer,
) -> Result<(), Memory>
    requires held { AreHeldIn book.now.program slots.now }
    requires call { IsCallIn book.now.program call }
    ensures { OnOk result (let t = book.now.program in let scope = scope_of t slots.now in
        code.new ≡ with_ops code.old
        (call_code (classes_of t) scope (length code.old.ops) (call_of t call)
        ++ dropped_code (call_result (classes_of t) scope (call_of t call)))) }
{
    let given = write_call(book, slots, call, code)?;
    write_dropped(given, code)
}

// The method of a name behind a type.
fn callee(book: &Book, ty: Ty, name: u32) -> Option<Sig>
    requires { IsNameIn book.now.program name }
    ensures { let t = book.now.program in
        CalleeIs (classes_of t) (class_of (classes_of t) ty) (name_at t name) result }
{
    match ty {
        Ty::Int => None,
        Ty::Bool => None,
        Ty::Ref { class, .. } => {
            if class >= book.class_count() {
                return None;
            }
            book.method(class, name)
        }
    }
}

// Appends the code of arguments in order.
fn write_args(book: &Book, slots: &Slots, args: &[u32], code: &mut Writer) -> Result<(), Memory>
    requires held { AreHeldIn book.now.program slots.now }
    requires args { All (λ e. e < length book.now.program.exprs) args.now }
    ensures { OnOk result (let t = book.now.program in code.new ≡ with_ops code.old
        (exprs_code (classes_of t) (scope_of t slots.now) (length code.old.ops)
        (map (expr_at t) args.now))) }
{
    for arg in args {
        write_expr(book, slots, *arg, code)?;
    }
    Ok(())
}

// Clears what arguments use up.
fn clear_args(book: &Book, slots: &Slots, args: &[u32], code: &mut Writer) -> Result<(), Memory>
    requires held { AreHeldIn book.now.program slots.now }
    requires args { All (λ e. e < length book.now.program.exprs) args.now }
    ensures { OnOk result (let t = book.now.program in code.new ≡ with_ops code.old
        (clears (used_by_all (scope_of t slots.now) (map (expr_at t) args.now)))) }
{
    for arg in args {
        clear_used(book, slots, *arg, code)?;
    }
    Ok(())
}

// Takes away the result of a call that nothing takes.
fn write_dropped(given: Option<Ty>, code: &mut Writer) -> Result<(), Memory>
    ensures { OnOk result (code.new ≡ with_ops code.old (dropped_code given)) }
{
    match given {
        None => Ok(()),
        Some(ty) => {
            if is_iso(ty) {
                return code.push(Op::Drop);
            }
            code.push(Op::Pop)
        }
    }
}
