//! The contents with which a behaviour begins (docs/architecture.md, "How a behaviour begins").

ghost use Rattle.std.specs.Prelude.{◌+◌, ◌<◌, OnOk, length};
ghost use Rattle.rg_begin.specs.Inner.Laid.{AllMayCome, Laid};

use rg_base::{Memory, Word};
use rg_frames::Frames;
use rg_heap::Heap;
use rg_opening::Given;
use std::alloc::Global;

/// Where a field begins with a content, it comes into the heap, and the field owns it.
fn take_content(
    alloc: Global,
    heap: &mut Heap,
    frames: &Frames,
    object: usize,
    class: u32,
    given: &[Given],
    field: u32,
) -> Result<(), Memory>
    requires laid { Laid heap.old frames.now object class given.now field }
    requires may { AllMayCome given.now }
    requires within { field < length given.now }
    ensures { OnOk result (Laid heap.new frames.now object class given.now (field + 1)) }
{
    let cargo = match &given[field as usize] {
        Given::Start(_) => return Ok(()),
        Given::Held(cargo) => cargo,
    };
    heap.is_forest();
    let bridge = heap.load(alloc, cargo)?;
    heap.is_forest();
    heap.swap(frames, object, field, Word::Slot(bridge));
    Ok(())
}

/// All contents come, in the order of the fields.
pub fn take_contents(
    alloc: Global,
    heap: &mut Heap,
    frames: &Frames,
    object: usize,
    class: u32,
    given: &[Given],
) -> Result<(), Memory>
    requires laid { Laid heap.old frames.now object class given.now 0 }
    requires may { AllMayCome given.now }
    ensures { OnOk result (Laid heap.new frames.now object class given.now (length given.now)) }
{
    heap.is_forest();
    let fields = heap.size(object);
    for field in 0..fields {
        take_content(alloc, heap, frames, object, class, given, field)?;
    }
    Ok(())
}
