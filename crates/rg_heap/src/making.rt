//! New objects, in a region and with a region of their own (docs/architecture.md, "The heap").

ghost use Rattle.std.specs.Prelude.{◌≡◌, ℕ, IfOk, OnErr};
ghost use Rattle.rg_base.specs.declared.object.Label.TheVariants.{Region as Of};
ghost use Rattle.rg_regions.specs.Table.{IsKey, HasNumber};
ghost use Rattle.rg_regions.specs.Grove.{Grove};
ghost use Rattle.rg_heap.specs.Changes.{LeadsNowhere, Makes, SameRecords};
ghost use Rattle.rg_heap.specs.Changes.{OpensOne, Rewritten, as_it_is, with_one};

use rg_base::{Label, Manager, Memory, Word};
use rg_cells::Cells;
use rg_regions::Regions;

/// A cell in the region of a key.
pub fn make_in(
    cells: &mut Cells,
    regions: &mut Regions,
    key: usize,
    class: u32,
    fields: &[Word],
) -> Result<usize, Memory>
    requires grove { Grove cells.old regions.old }
    requires key { IsKey regions.old key }
    requires plain { LeadsNowhere fields.now }
    ensures cell { IfOk result (λ slot. (n : ℕ) → HasNumber regions.old key n
        → Makes cells.old cells.new slot class (Of n) fields.now) }
    ensures member { IfOk result (λ slot. Rewritten regions.old regions.new key (with_one slot)) }
    ensures cells { OnErr result (cells.new ≡ cells.old) }
    ensures regions { OnErr result (Rewritten regions.old regions.new key as_it_is) }
    ensures grove { Grove cells.new regions.new }
{
    let number = regions.number(key);
    let Ok(()) = regions.reserve(key, 1) else {
        return Err(Memory);
    };
    let Ok(slot) = cells.make(class, Label::Region(number), fields) else {
        return Err(Memory);
    };
    regions.push_member(key, slot);
    Ok(slot)
}

/// A cell with a region of its own, whose bridge it is.
pub fn make_bridge(
    cells: &mut Cells,
    regions: &mut Regions,
    class: u32,
    fields: &[Word],
    manager: Manager,
) -> Result<usize, Memory>
    requires grove { Grove cells.old regions.old }
    requires plain { LeadsNowhere fields.now }
    ensures cell { IfOk result (λ slot.
        Makes cells.old cells.new slot class (Of regions.old.next) fields.now) }
    ensures region { IfOk result (λ slot. OpensOne regions.old regions.new slot manager) }
    ensures cells { OnErr result (cells.new ≡ cells.old) }
    ensures regions { OnErr result (SameRecords regions.old regions.new) }
    ensures grove { Grove cells.new regions.new }
{
    let key = regions.add(manager)?;
    let Ok(()) = regions.reserve(key, 1) else {
        regions.cancel(key);
        return Err(Memory);
    };
    let number = regions.number(key);
    let Ok(slot) = cells.make(class, Label::Region(number), fields) else {
        regions.cancel(key);
        return Err(Memory);
    };
    regions.set_bridge(key, slot);
    regions.push_member(key, slot);
    Ok(slot)
}
