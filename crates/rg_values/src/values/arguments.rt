//! The arguments of calls (docs/language.md, "Steps").

ghost use Rattle.std.specs.Prelude.{◌≡◌, All, IfOk, flat_map, map};
ghost use Rattle.rg_tree.specs.Rows.RowTrees.{classes_of, expr_at};
ghost use Rattle.rg_tree.specs.Rows.RowsExist.{IsExprNumber};
ghost use Rattle.rg_rules.specs.Evaluation.{cleared, uses, values_of};
ghost use Rattle.rg_store.specs.Shown.{AreOfClasses, store_of};
ghost use Rattle.rg_values.specs.Shown.{AreNamed, locals_of};

use crate::refusal::Refusal;
use crate::state::rows::LocalRow;
use crate::values::expressions::value;
use crate::values::uses::use_up;
use rg_base::{Trap, Val};
use rg_names::Book;
use rg_store::ObjectRow;
use std::alloc::Global;

/// The values of expressions, from left to right.
pub fn arguments(
    alloc: Global,
    book: &Book,
    store: &[ObjectRow],
    locals: &[LocalRow],
    args: &[u32],
) -> Result<Vec<Val>, Refusal>
    requires objects { AreOfClasses book.now.program store.now }
    requires named { AreNamed book.now.program locals.now }
    requires there { All (IsExprNumber book.now.program) args.now }
    ensures values { IfOk result (λ vs. Ok vs.items ≡ values_of (classes_of book.now.program)
        (store_of store.now) (locals_of book.now.program locals.now)
        (map (expr_at book.now.program) args.now)) }
    ensures trap { (kind : Trap) → result ≡ Err (Refusal.Trap kind) → Err kind ≡ values_of
        (classes_of book.now.program) (store_of store.now) (locals_of book.now.program locals.now)
        (map (expr_at book.now.program) args.now) }
{
    let mut values = Vec::new(alloc);
    for e in args {
        match value(book, store, locals, *e) {
            Ok(v) => {
                let Ok(()) = values.push(v) else {
                    return Err(Refusal::Memory);
                };
            }
            Err(kind) => return Err(Refusal::Trap(kind)),
        }
    }
    Ok(values)
}

/// Clears what expressions use up.
pub fn use_up_all(book: &Book, locals: &mut [LocalRow], args: &[u32])
    requires named { AreNamed book.now.program locals.old }
    requires there { All (IsExprNumber book.now.program) args.now }
    ensures cleared { let old = locals_of book.now.program locals.old in locals_of book.now.program
        locals.new ≡ cleared (flat_map (uses old) (map (expr_at book.now.program) args.now)) old }
    ensures named { AreNamed book.now.program locals.new }
{
    for e in args {
        use_up(book, locals, *e);
    }
}
