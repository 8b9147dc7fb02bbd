//! How a window is entered and left (docs/language.md, "Instructions and lowering").

ghost use Rattle.std.specs.Prelude.{◌≡◌, ◌+◌, ◌<◌, ◌^◌, option_map, OnOk, IfOk, IfSome};
ghost use Rattle.rg_base.specs.declared.words.Cap.TheVariants as cap;
ghost use Rattle.rg_base.specs.declared.ty.Ty.TheVariants as ty;
ghost use Rattle.rg_tree.specs.Rows.Tables.{name_at};
ghost use Rattle.rg_tree.specs.Rows.RowTrees.{classes_of, path_of};
ghost use Rattle.rg_tree.specs.Rows.RowsExist.{IsNameIn, IsPathIn};
ghost use Rattle.rg_code.specs.Lowering.{above, class_of, enter_code, leave_op, type_along};
ghost use Rattle.rg_code.specs.Lowering.{type_in};
ghost use Rattle.rg_lower.specs.Inner.Slots.{scope_of, AreHeldIn};
ghost use Rattle.rg_lower.specs.Inner.Emitted.{with_ops};

use crate::holders::write_holder;
use crate::slots::Slots;
use crate::writer::Writer;
use rg_base::{Cap, Memory, Ty};
use rg_code::Op;
use rg_names::Book;
use rg_tree::Path;

/// Appends how `enter q as z` begins behind its mark; the type of z, whose slot is the next one.
pub fn write_entry(book: &Book, slots: &Slots, path: Path, code: &mut Writer) -> Result<Ty, Memory>
    requires held { AreHeldIn book.now.program slots.now }
    requires path { IsPathIn book.now.program path }
    ensures code { OnOk result (let t = book.now.program in let p = path_of t path in code.new
        ≡ with_ops code.old (enter_code (classes_of t) (scope_of t slots.now) p.base p.fields)) }
    ensures ty { IfOk result (λ z. let t = book.now.program in let p = path_of t path in
        z ≡ ty.Ref cap.Mut (class_of (classes_of t)
        (type_along (classes_of t) (type_in (scope_of t slots.now) p.base) p.fields))) }
{
    let bridge = slots.next();
    match write_holder(book, slots, path, code)? {
        None => {
            let found = slots.find(book, path.base);
            code.push(Op::Enter {
                slot: found.slot,
                bridge,
            })?;
            Ok(bridge_type(book, found.ty))
        }
        Some(found) => {
            code.push(Op::EnterField {
                index: found.index,
                bridge,
            })?;
            Ok(bridge_type(book, found.ty))
        }
    }
}

/// What an `enter` says round its block: `q`, the name of the bridge and that of `giving`.
#[derive(Clone, Copy)]
pub struct Entrance {
    pub path: Path,
    pub name: u32,
    pub giving: Option<u32>,
}

/// How the window ends whose bridge has a slot, with the variables at the end of its block.
pub fn leaving(book: &Book, slots: &Slots, first: u32, giving: Option<u32>) -> Op
    requires held { AreHeldIn book.now.program slots.now }
    requires giving { IfSome giving (IsNameIn book.now.program) }
    requires low { first + 1 < 2 ^ 32 }
    ensures op { let t = book.now.program in
        result ≡ leave_op (scope_of t slots.now) first (option_map (name_at t) giving) }
    ensures low { above result < 2 ^ 32 }
{
    match giving {
        None => Op::Leave { slot: first },
        Some(name) => Op::LeaveGiving {
            given: slots.find(book, Some(name)).slot,
            slot: first,
        },
    }
}

// The type of the bridge of what a variable or a field of a type owns.
fn bridge_type(book: &Book, owner: Ty) -> Ty
    ensures { result ≡ ty.Ref cap.Mut (class_of (classes_of book.now.program) owner) }
{
    let class = match owner {
        Ty::Int => book.class_count(),
        Ty::Bool => book.class_count(),
        Ty::Ref { class, .. } => class,
    };
    Ty::Ref {
        cap: Cap::Mut,
        class,
    }
}
