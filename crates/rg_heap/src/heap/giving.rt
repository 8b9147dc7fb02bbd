//! Windows that are left with another bridge (docs/architecture.md, "The heap").

ghost use Rattle.std.specs.Prelude.{◌≡◌, ◌≤◌, OnErr, length};
ghost use Rattle.rg_frames.specs.Changes.{Begun};
ghost use Rattle.rg_heap.specs.Ends.{CanLeave, OnSlot};
ghost use Rattle.rg_heap.specs.Gives.{CanGive, GivenOrNil, Gives};
ghost use Rattle.rg_heap.specs.Opened.{Opened};

use crate::ending::end_temps;
use crate::giving::put_owner;
use crate::heap::Heap;
use rg_base::{Trap, Word};
use rg_frames::Frames;

impl Heap {
    /// As `leave`, but the cell that is referred to becomes the bridge of the region that is left,
    /// and its owner leads to it. `Nil` comes exactly at nil, and changes nothing. Where the owner
    /// is a field, its object is looked for among the cells of the region beneath and the
    /// temporaries of the window beneath; no memory is taken.
    pub fn leave_giving(&mut self, frames: &mut Frames, at: Word) -> Result<(), Trap>
        requires begun { Begun frames.old }
        requires two { 2 ≤ length frames.old.windows }
        requires temps { CanLeave self.old frames.old }
        requires opened { Opened self.old frames.old }
        requires given { CanGive self.old frames.old at }
        ensures answer { GivenOrNil at result }
        ensures nil { OnErr result (self.new ≡ self.old) }
        ensures frames { OnErr result (frames.new ≡ frames.old) }
        ensures gives { OnSlot at (λ slot. Gives self.old self.new frames.old frames.new slot) }
    {
        let slot = match at {
            Word::Nil => return Err(Trap::Nil),
            Word::Int(_) | Word::Bool(_) => unreachable!(),
            Word::Slot(slot) => slot,
        };
        let _ = self.cells.made();
        end_temps(&mut self.cells, &mut self.regions, frames);
        frames.clear_temps();
        let window = frames.pop_window();
        put_owner(&mut self.cells, &self.regions, frames, window.owner, at);
        self.regions.set_bridge(window.region, slot);
        Ok(())
    }
}
