//! That ample memory is enough for a heap with main's region, an object of it, a temporary and an
//! object with a region of its own (docs/architecture.md, "The heap").

ghost use Rattle.std.specs.Prelude.{◌≡◌};
ghost use Rattle.rg_frames.specs.Stack.{IsEmpty};

use rg_base::{Manager, Memory};
use rg_frames::Frames;
use rg_heap::Heap;

// Region 0 counts, and has one cell; the third object's region is closed.
fn has_three_objects(heap: &mut Heap, frames: &mut Frames) -> Result<bool, Memory>
    requires next { heap.old.regions.next ≡ 0 }
    requires empty { IsEmpty frames.old }
{
    let key = heap.begin(Manager::Count)?;
    frames.begin(key, 1)?;
    let active = heap.active(frames);
    heap.make(frames, 4, &[])?;
    heap.make_tmp(frames, 5, &[])?;
    let bridge = heap.make_region(6, &[], Manager::Trace)?;
    let is_third = active.region == 0 && active.held == 0 && heap.serial(bridge) == 2;
    let numbers = heap.numbers();
    Ok(is_third && numbers.made == 3 && numbers.held == 3 && numbers.regions == 2)
}

#[test]
fn three_objects(rt: HostRuntime) {
    let mut heap = Heap::new(rt.alloc());
    let mut frames = Frames::new(rt.alloc());
    assert!(rt; matches!(has_three_objects(&mut heap, &mut frames), Ok(true)));
}
