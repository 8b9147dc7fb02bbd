//! The machine with which a behaviour begins (docs/architecture.md, "How a behaviour begins").

ghost use Rattle.std.specs.Prelude.{IfOk};
ghost use Rattle.rg_begin.specs.Begun.{FirstHeld, IsBare, ShowsOpening};
ghost use Rattle.rg_begin.specs.Starts.{MayStart};

use crate::contents::take_contents;
use crate::first::{make_first, push_method};
use rg_base::Memory;
use rg_code::CodeList;
use rg_frames::Frames;
use rg_heap::Heap;
use rg_machine::Machine;
use rg_opening::{Given, behaviour_opening_fits};
use std::alloc::Global;

/// The machine with which a behaviour begins that runs a method of a class, by its number among all
/// methods of the program, on an object whose fields begin so. Linear in the contents.
pub fn begin(
    alloc: Global,
    code: &CodeList,
    class: u32,
    method: u32,
    given: &[Given],
) -> Result<Machine, Memory>
    requires { MayStart code.now class method given.now }
    ensures shows { IfOk result (λ m. ShowsOpening code.now class method given.now m) }
    ensures first { IfOk result (λ m. FirstHeld m.heap) }
    ensures bare { IfOk result (λ m. IsBare m) }
{
    behaviour_opening_fits();
    let mut heap = Heap::new(alloc);
    let mut frames = Frames::new(alloc);
    let object = make_first(&mut heap, &mut frames, code, class, given)?;
    take_contents(alloc, &mut heap, &frames, object, class, given)?;
    let entry = code.entry(method);
    push_method(&mut frames, entry, object)?;
    heap.is_forest();
    Ok(Machine::over(alloc, heap, frames, entry.at))
}
