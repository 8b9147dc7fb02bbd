//! What is read of cells and regions together (docs/architecture.md, "The heap").

ghost use Rattle.std.specs.Prelude.{◌≡◌, ℕ, Some, None, IfSome, IfOk};
ghost use Rattle.rg_cells.specs.Table.{IsHeld};
ghost use Rattle.rg_regions.specs.Table.{HasNumber};
ghost use Rattle.rg_regions.specs.Reach.{LiesIn};
ghost use Rattle.rg_heap.specs.Answers.{val_of, AllLead};
ghost use Rattle.rg_heap.specs.Reads.{shown_fields};
ghost use Rattle.rg_heap.specs.Inner.Chains.{AllInTable};

use rg_base::{Label, Memory, Val, Vals, Word};
use rg_cells::Cells;
use rg_regions::Regions;
use std::alloc::Global;

/// The key of the region in which a held cell lies, if it lies in one.
pub fn region_of(cells: &Cells, regions: &Regions, slot: usize) -> Option<usize>
    requires labels { AllInTable cells.now.heap regions.now }
    requires held { IsHeld cells.now.heap slot }
    ensures some { IfSome result (λ key. (q : ℕ) × LiesIn cells.now.heap q slot
        × HasNumber regions.now key q) }
    ensures none { result ≡ None → (q : ℕ) → LiesIn cells.now.heap q slot → ⊥ }
{
    let Label::Region(number) = cells.label(slot) else {
        return None;
    };
    let Some(key) = regions.key(number) else {
        unreachable!();
    };
    Some(key)
}

// A word of a cell or a frame, as it is shown.
fn val(cells: &Cells, w: Word) -> Val
    requires { (s : ℕ) → w ≡ Word.Slot s → IsHeld cells.now.heap s }
    ensures { result ≡ val_of cells.now.heap w }
{
    match w {
        Word::Nil => Val::Nil,
        Word::Int(i) => Val::Int(i),
        Word::Bool(b) => Val::Bool(b),
        Word::Slot(s) => Val::Obj(cells.serial(s)),
    }
}

/// The fields of a held cell, as they are shown.
pub fn vals(alloc: Global, cells: &Cells, slot: usize) -> Result<Vals, Memory>
    requires held { IsHeld cells.now.heap slot }
    requires lead { AllLead cells.now.heap slot }
    ensures { IfOk result (λ vals. vals ≡ shown_fields cells.now.heap slot) }
{
    let mut vals = Vals::new(alloc);
    for k in 0..cells.field_count(slot) {
        vals.push(val(cells, cells.field(slot, k)))?;
    }
    Ok(vals)
}
