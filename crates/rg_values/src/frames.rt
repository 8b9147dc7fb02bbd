//! The frames of calls (docs/language.md, "Steps").

ghost use Rattle.std.specs.Prelude.{◌++◌, ◌+◌, ◌<◌, ◌≡◌, ◌≤◌, All, IfOk, None, length, map};
ghost use Rattle.std.specs.Prelude.{slice_get, unwrap_or, vec_capacity};
ghost use Rattle.rg_tree.specs.Rows.RowTrees.{classes_of, param_at, method_of};
ghost use Rattle.rg_tree.specs.Rows.RowsExist.{IsMethodIn};
ghost use Rattle.rg_rules.specs.RightSides.{bound, called_frame};
ghost use Rattle.rg_values.specs.Kept.{frame_of, kept_frame, target_of};
ghost use Rattle.rg_values.specs.Shown.{AreNamed, locals_of};

use crate::state::rows::{FrameRow, LocalRow, TargetRow};
use crate::values::paths::Receiver;
use crate::values::types::written_type;
use rg_base::{Memory, Ty, Val};
use rg_names::Book;
use rg_tree::MethodRow;
use std::alloc::Global;

/// The value at a place, or nil where there is none.
fn value_at(values: &[Val], place: usize) -> Val
    ensures { result ≡ unwrap_or (slice_get values.now place) Val.Nil }
{
    match values.get(place) {
        Some(value) => *value,
        None => Val::Nil,
    }
}

/// Adds the parameters with their values; one without a value is nil.
fn bind(book: &Book, locals: &mut Vec<LocalRow>, params: &[u32], values: &[Val])
    requires params { All (λ k. k < length book.now.program.params) params.now }
    requires named { AreNamed book.now.program locals.old.items }
    requires room { length locals.old.items + length params.now ≤ vec_capacity locals.old }
    ensures bound { locals_of book.now.program locals.new.items ≡ locals_of book.now.program
        locals.old.items ++ bound (classes_of book.now.program) (map (param_at book.now.program)
        params.now) values.now }
    ensures named { AreNamed book.now.program locals.new.items }
{
    for (i, k) in params.iter().enumerate() {
        let param = book.param(*k);
        locals.push_reserved(LocalRow {
            name: Some(param.name),
            ty: written_type(book, param.ty),
            value: value_at(values, i),
        });
    }
}

/// A call whose method was found: where its result goes, `self`, and the method.
#[derive(Clone, Copy)]
pub struct Callee {
    pub to: TargetRow,
    pub found: Receiver,
    pub method: MethodRow,
}

/// A frame with `self` and the parameters.
pub fn new_frame(
    alloc: Global,
    book: &Book,
    callee: Callee,
    args: &[Val],
) -> Result<FrameRow, Memory>
    requires method { IsMethodIn book.now.program callee.method }
    ensures frame { IfOk result (λ f. frame_of book.now.program (kept_frame f)
        ≡ called_frame (classes_of book.now.program) (target_of book.now.program callee.to)
        (method_of book.now.program callee.method) callee.found.class callee.found.value args.now) }
    ensures named { IfOk result (λ f. AreNamed book.now.program f.locals.items) }
    ensures target { IfOk result (λ f. f.target ≡ callee.to) }
{
    let params = book.order(callee.method.params);
    let Ok(mut locals) = Vec::with_capacity(alloc, params.len() + 1) else {
        return Err(Memory);
    };
    locals.push_reserved(LocalRow {
        name: None,
        ty: Ty::Ref {
            cap: callee.method.cap,
            class: callee.found.class,
        },
        value: callee.found.value,
    });
    bind(book, &mut locals, params, args);
    Ok(FrameRow {
        locals,
        target: callee.to,
    })
}
