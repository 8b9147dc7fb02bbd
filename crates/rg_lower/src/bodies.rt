//! The code of the bodies of methods (docs/language.md, "Instructions and lowering").

ghost use Rattle.std.specs.Prelude.{◌≡◌, ◌<◌, ◌+◌, ◌≤◌, suc, option_map, All, map, length};
ghost use Rattle.std.specs.Prelude.{OnOk};
ghost use Rattle.rg_base.specs.declared.limits.TheConstants.{BODY_NAMES};
ghost use Rattle.rg_tree.specs.Rows.Tables.{Tables};
ghost use Rattle.rg_tree.specs.Rows.RowTrees as rows;
ghost use Rattle.rg_tree.specs.Rows.RowsExist.{IsBlockIn, IsMemberIn, IsSpanBelow};
ghost use Rattle.rg_rules.specs.Names.{method_names, HasFewNames};
ghost use Rattle.rg_code.specs.Lowering.{method_code, method_end_code, with_params};
ghost use Rattle.rg_lower.specs.Inner.Slots.{scope_of, AreHeldIn};
ghost use Rattle.rg_lower.specs.Inner.Emitted.{with_ops};
ghost use Rattle.rg_lower.specs.Inner.Methods.{method_of, with_body, with_member};

use crate::fields::type_of;
use crate::slots::Slots;
use crate::statements::write_block;
use crate::writer::Writer;
use rg_base::{Memory, Ty};
use rg_code::{Entry, Op};
use rg_names::Book;
use rg_tree::{MemberRow, MethodRow, TypeRow};
use std::alloc::Global;

/// Appends the code of a member of a class, of which only a method has a body.
pub fn write_member(
    alloc: Global,
    book: &Book,
    class: u32,
    row: MemberRow,
    code: &mut Writer,
) -> Result<(), Memory>
    requires row { IsMemberIn book.now.program row }
    requires names { HasFewNames (rows.member_of book.now.program row) }
    ensures { OnOk result (let t = book.now.program in
        code.new ≡ with_member (rows.classes_of t) class (rows.member_of t row) code.old) }
{
    match row {
        MemberRow::Field { .. } => Ok(()),
        MemberRow::Method {
            cap,
            name,
            params,
            result,
            body,
            line,
        } => {
            let method = MethodRow {
                cap,
                name,
                params,
                result,
                body,
                line,
            };
            write_method(alloc, book, class, method, code)
        }
    }
}

// Appends the code of a method, and its entry.
fn write_method(
    alloc: Global,
    book: &Book,
    class: u32,
    method: MethodRow,
    code: &mut Writer,
) -> Result<(), Memory>
    requires params { IsSpanBelow book.now.program (length book.now.program.params) method.params }
    requires body { IsBlockIn book.now.program method.body }
    requires names { method_names (method_of book.now.program method) ≤ BODY_NAMES }
    ensures { OnOk result (let t = book.now.program in let m = method_of t method in code.new
        ≡ with_body code.old (suc (length m.params))
        (method_code (rows.classes_of t) (length code.old.ops) class m)) }
{
    let at = code.len();
    let mut slots = Slots::new(alloc);
    let receiver = Ty::Ref {
        cap: method.cap,
        class,
    };
    slots.push(None, receiver)?;
    push_params(book, book.order(method.params), &mut slots)?;
    let given = slots.next();
    write_block(book, &mut slots, method.body, code)?;
    write_end(method.result, method.line, code)?;
    let slots = code.slots_from(at, given);
    code.add_method(Entry { at, given, slots })
}

// Parameters in the next slots.
fn push_params(book: &Book, params: &[u32], slots: &mut Slots) -> Result<(), Memory>
    requires held { AreHeldIn book.now.program slots.old }
    requires params { All (λ k. k < length book.now.program.params) params.now }
    requires room { length slots.old + length params.now ≤ BODY_NAMES }
    ensures scope { OnOk result (let t = book.now.program in scope_of t slots.new
        ≡ with_params (rows.classes_of t) (scope_of t slots.old)
        (map (rows.param_at t) params.now)) }
    ensures held { OnOk result (AreHeldIn book.now.program slots.new) }
    ensures count { OnOk result (length slots.new ≡ length slots.old + length params.now) }
{
    for param in params {
        let row = book.param(*param);
        slots.push(Some(row.name), type_of(book, row.ty))?;
    }
    Ok(())
}

// Appends the end of a method without a result.
fn write_end(given: Option<TypeRow>, line: u64, code: &mut Writer) -> Result<(), Memory>
    ensures { OnOk result ((t : Tables) → code.new ≡ with_ops code.old
        (method_end_code line (option_map (rows.type_of t) given))) }
{
    match given {
        None => {
            code.push(Op::Mark { line })?;
            code.push(Op::RetVoid)
        }
        Some(_) => Ok(()),
    }
}
