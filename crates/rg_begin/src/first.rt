//! The object of a behaviour, and the frame of its method (docs/architecture.md, "How a behaviour
//! begins").

ghost use Rattle.std.specs.Prelude.{◌≡◌, IfOk, OnOk};
ghost use Rattle.rg_begin.specs.Inner.First.{FirstMade, NothingMade, Opens, with_method};

use rg_base::{Manager, Memory, Word};
use rg_code::{CodeList, Entry};
use rg_frames::Frames;
use rg_heap::Heap;
use rg_opening::Given;

/// Region 0, an arena, with an object of the class, main's frame, and window 0 over it; answers the
/// slot of the object.
pub fn make_first(
    heap: &mut Heap,
    frames: &mut Frames,
    code: &CodeList,
    class: u32,
    given: &[Given],
) -> Result<usize, Memory>
    requires nothing { NothingMade heap.old frames.old }
    requires opens { Opens code.now class given.now }
    ensures { IfOk result (λ slot.
        FirstMade heap.new frames.new code.now.main_slots slot class given.now) }
{
    let key = heap.begin(Manager::Arena)?;
    frames.begin(key, code.main_slots())?;
    heap.is_forest();
    heap.make(frames, class, code.opening(class))
}

/// The frame of the method, which has the object in its first slot.
pub fn push_method(frames: &mut Frames, entry: Entry, object: usize) -> Result<(), Memory>
    ensures { OnOk result (frames.new ≡ with_method frames.old entry.slots object
        frames.new.frame_room frames.new.slot_room) }
{
    let more = entry.slots.saturating_sub(1) as usize;
    frames.reserve(more + 1)?;
    frames.push_frame_of(0, &[Word::Slot(object)], more);
    Ok(())
}
