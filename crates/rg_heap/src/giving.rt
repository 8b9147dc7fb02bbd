//! What stands at an owner's place is written (docs/architecture.md, "The heap").

ghost use Rattle.std.specs.Prelude.{◌≡◌, ℕ, None, Some, IfSome, slice_get};
ghost use Rattle.rg_cells.specs.Table.{HasSerial};
ghost use Rattle.rg_regions.specs.Table.{IsKey};
ghost use Rattle.rg_regions.specs.Collection.{AllHeld};
ghost use Rattle.rg_regions.specs.Grove.{Grove};
ghost use Rattle.rg_frames.specs.Changes.{Begun};
ghost use Rattle.rg_heap.specs.Parts.{OnTop};
ghost use Rattle.rg_heap.specs.Ends.{top_temps};
ghost use Rattle.rg_heap.specs.Gives.{IsNear, Puts};
ghost use Rattle.rg_heap.specs.Inner.Places.{CanPut};

use rg_base::{Place, Word};
use rg_cells::Cells;
use rg_frames::Frames;
use rg_regions::Regions;

// The cell with a serial among some cells, if it is one of them.
fn with_serial(cells: &Cells, slots: &[usize], serial: u64) -> Option<usize>
    requires { AllHeld cells.now.heap slots.now }
    ensures some { IfSome result (λ s. HasSerial cells.now.heap s serial) }
    ensures none { result ≡ None → (i s : ℕ) → slice_get slots.now i ≡ Some s
        → HasSerial cells.now.heap s serial → ⊥ }
{
    for slot in slots {
        if cells.serial(*slot) == serial {
            return Some(*slot);
        }
    }
    None
}

// The cell with a serial, which is one of the top window's region or one of its temporaries.
fn holder(cells: &Cells, regions: &Regions, frames: &Frames, serial: u64) -> usize
    requires grove { Grove cells.now regions.now }
    requires begun { Begun frames.now }
    requires key { OnTop frames.now (λ w. IsKey regions.now w.region) }
    requires temps { AllHeld cells.now.heap (top_temps frames.now) }
    requires there { (s : ℕ) × HasSerial cells.now.heap s serial
        × IsNear (record { cells = cells.now; regions = regions.now }) frames.now s }
    ensures { HasSerial cells.now.heap result serial }
{
    let key = frames.top().region;
    if let Some(slot) = with_serial(cells, regions.members(key), serial) {
        return slot;
    }
    let Some(slot) = with_serial(cells, frames.temps(), serial) else {
        unreachable!();
    };
    slot
}

/// Writes a word at an owner's place: a variable of the top frame, or a field of a cell of the top
/// window's region or of one of its temporaries.
pub fn put_owner(
    cells: &mut Cells,
    regions: &Regions,
    frames: &mut Frames,
    owner: Option<Place>,
    w: Word,
)
    requires grove { Grove cells.old regions.now }
    requires begun { Begun frames.old }
    requires key { OnTop frames.old (λ top. IsKey regions.now top.region) }
    requires temps { AllHeld cells.old.heap (top_temps frames.old) }
    requires place { CanPut (record { cells = cells.old; regions = regions.now }) frames.old owner }
    ensures puts { Puts owner w cells.old.heap cells.new.heap frames.old frames.new }
    ensures marks { cells.new ≡ record cells.old { heap = cells.new.heap } }
{
    match owner {
        None => unreachable!(),
        Some(Place::Var { frame: _, slot }) => frames.set_slot(slot, w),
        Some(Place::Field { serial, index }) => {
            let slot = holder(cells, regions, frames, serial);
            cells.set_field(slot, index, w);
        }
    }
}
