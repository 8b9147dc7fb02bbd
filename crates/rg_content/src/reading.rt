//! What an `iso` field of an object owns (docs/architecture.md, "How a behaviour begins").

ghost use Rattle.std.specs.Prelude.{ℕ, IfOk};
ghost use Rattle.rg_tree.specs.Tree.{Tree};
ghost use Rattle.rg_rules.specs.State.{State};
ghost use Rattle.rg_sound.specs.Fit.{Fit};
ghost use Rattle.rg_code.specs.Code.{Code};
ghost use Rattle.rg_cells.specs.Table.{HasSerial};
ghost use Rattle.rg_held.specs.Shown.{ShowsHeld};
ghost use Rattle.rg_machine.specs.Parts.{machine_in};
ghost use Rattle.rg_content.specs.Fields.{IsContent, IsOwnField};

use rg_base::{Memory, Word};
use rg_cown::Cargo;
use rg_machine::Machine;
use std::alloc::Global;

/// What an `iso` field owns of an object of a region, which is named by its serial: None exactly at
/// nil. The object is looked for among all slots; what the field owns is read in linear time.
pub fn content(p: &Machine, alloc: Global, serial: u64, field: u32) -> Result<Option<Cargo>, Memory>
    requires held { (slot : ℕ) × HasSerial p.now.heap.cells.heap slot serial }
    requires owns { (t : Tree) × (code : Code) × (s : State) × Fit t s
        × ShowsHeld t.classes code (machine_in p.now) s
        × IsOwnField t.classes s.store serial field }
    ensures { (t : Tree) (code : Code) (s : State) → Fit t s
        → ShowsHeld t.classes code (machine_in p.now) s
        → IsOwnField t.classes s.store serial field
        → IfOk result (IsContent s serial field) }
{
    p.is_sound();
    let heap = p.heap();
    let Some(slot) = heap.find(serial) else {
        unreachable!();
    };
    let Ok(word) = heap.read(Word::Slot(slot), field) else {
        unreachable!();
    };
    match word {
        Word::Nil => Ok(None),
        Word::Int(_) | Word::Bool(_) => unreachable!(),
        Word::Slot(bridge) => {
            let cargo = heap.unload(alloc, bridge)?;
            Ok(Some(cargo))
        }
    }
}
