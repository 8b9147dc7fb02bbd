//! What a behaviour that is done gives back (docs/architecture.md, "Worlds").

ghost use Rattle.std.specs.Prelude.{◌≡◌, ◌<◌, length, map, IfOk};
ghost use Rattle.rg_tree.specs.Rows.RowTrees.{classes_of, program_of};
ghost use Rattle.rg_rules.specs.State.{State};
ghost use Rattle.rg_rules.specs.Types.{fields_of};
ghost use Rattle.rg_code.specs.Code.{Code};
ghost use Rattle.rg_held.specs.Shown.{ShowsHeld};
ghost use Rattle.rg_machine.specs.Parts.{machine_in};
ghost use Rattle.rg_first.specs.First.{IsOfBehaviour};
ghost use Rattle.rg_sched_atomic.specs.Contents.{goes_back};
ghost use Rattle.rg_slots.specs.Slots.{content_in};
ghost use Rattle.rg_step.specs.Behaviours.{HoldsFirst};
ghost use Rattle.rg_world.specs.Inner.Steps.{slot_of};

use rg_base::Memory;
use rg_cown::Cargo;
use rg_names::Book;
use rg_slots::{Slot, is_iso};
use rg_step::Stepper;
use rg_tree::MemberRow;
use std::alloc::Global;

/// The contents that the `iso` fields of a behaviour's object own, in order. The machine shows some
/// state of a behaviour of that class.
pub(crate) fn contents_back(
    alloc: Global,
    book: &Book<'_>,
    class: u32,
    stepper: &Stepper,
) -> Result<Vec<Slot>, Memory>
    requires class { class < length (classes_of book.now.program) }
    requires first { HoldsFirst stepper.now.parts }
    requires shows { let t = program_of book.now.program in (code : Code) × (s : State)
        × IsOfBehaviour t class s × ShowsHeld t.classes code (machine_in stepper.now.parts) s }
    ensures { let t = program_of book.now.program in (code : Code) (s : State) →
        IsOfBehaviour t class s → ShowsHeld t.classes code (machine_in stepper.now.parts) s →
        IfOk result (λ back. map content_in back.items
        ≡ goes_back (fields_of t.classes class) s) }
{
    let mut back = Vec::new(alloc);
    let mut field: u32 = 0;
    let members = book.members_of(book.class(class));
    for k in members {
        match book.member(*k) {
            MemberRow::Field { ty, .. } => {
                if is_iso(ty) {
                    let slot = slot_of(stepper.content(alloc, field)?);
                    let Ok(()) = back.push(slot) else {
                        return Err(Memory);
                    };
                }
                if field == u32::MAX {
                    return Err(Memory);
                }
                field += 1;
            }
            MemberRow::Method { .. } => {}
        }
    }
    Ok(back)
}

// What goes back to a cown.
fn slot_of(content: Option<Cargo>) -> Slot
    ensures { result ≡ slot_of content }
{
    match content {
        Some(cargo) => Slot::Held(cargo),
        None => Slot::Empty,
    }
}
