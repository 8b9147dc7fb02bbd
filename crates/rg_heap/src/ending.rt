//! Regions that go, and the cells of a window that is left (docs/architecture.md, "The heap").

ghost use Rattle.std.specs.Prelude.{◌≡◌, ◌⊎◌, ◌∷◌, ◌+◌, [], ℕ, Some, List, length, slice_get};
ghost use Rattle.std.specs.Prelude.{count_by, is_some};
ghost use Rattle.rg_cells.specs.Table.{IsHeld, body_at, width};
ghost use Rattle.rg_regions.specs.Table.{Chained};
ghost use Rattle.rg_release.specs.Released.{Unowned};
ghost use Rattle.rg_regions.specs.Grove.{Grove};
ghost use Rattle.rg_frames.specs.Changes.{Begun};
ghost use Rattle.rg_heap.specs.Answers.{AllLead};
ghost use Rattle.rg_heap.specs.Ends.{CanLeave, GoesAlong, IsTopTemp, Released};
ghost use Rattle.rg_heap.specs.Inner.Chains.{AllInTable, ChainsCells, ChainsFields, FirstFreed};
ghost use Rattle.rg_heap.specs.Inner.Chains.{Gone, OneKey, PutFirst, PutNone};

use crate::reading::region_of;
use rg_base::Word;
use rg_cells::Cells;
use rg_frames::Frames;
use rg_regions::Regions;
use rg_release::release;

/// Releases the regions that are chained from a head, and all beneath them; answers how many they
/// were.
pub fn release_all(cells: &mut Cells, regions: &mut Regions, head: Option<usize>) -> u64
    requires grove { Grove cells.old regions.old }
    requires chain { (keys : List ℕ) × Chained regions.old.links head keys
        × Unowned cells.old.heap regions.old keys }
    ensures gone { (keys : List ℕ) → Chained regions.old.links head keys
        → Gone cells.old regions.old keys cells.new regions.new }
    ensures count { result + count_by is_some regions.new.records
        ≡ count_by is_some regions.old.records }
    ensures grove { Grove cells.new regions.new }
{
    let Some(key) = head else {
        return 0;
    };
    release(cells, regions, key)
}

/// Releases the region of a key, and all beneath it.
pub fn release_one(cells: &mut Cells, regions: &mut Regions, key: usize)
    requires grove { Grove cells.old regions.old }
    requires unowned { Unowned cells.old.heap regions.old (key ∷ []) }
    ensures gone { Gone cells.old regions.old (key ∷ []) cells.new regions.new }
    ensures grove { Grove cells.new regions.new }
{
    regions.set_link(key, None);
    release_all(cells, regions, Some(key));
}

// A closed region into which a word leads becomes the head of the chain.
fn chain_word(
    cells: &Cells,
    regions: &mut Regions,
    frames: &Frames,
    w: Word,
    head: Option<usize>,
) -> Option<usize>
    requires held { (s : ℕ) → w ≡ Word.Slot s → IsHeld cells.now.heap s }
    requires labels { AllInTable cells.now.heap regions.old }
    requires keys { OneKey regions.old }
    ensures { PutFirst cells.now.heap frames.now w head result regions.old regions.new
        ⊎ PutNone cells.now.heap frames.now w head result regions.old regions.new }
{
    let Word::Slot(to) = w else {
        return head;
    };
    let Some(key) = region_of(cells, regions, to) else {
        return head;
    };
    if frames.is_open(key) {
        return head;
    }
    regions.set_link(key, head);
    Some(key)
}

// The closed regions into which the fields of a cell lead become heads of the chain, one by one.
fn chain_fields(
    cells: &Cells,
    regions: &mut Regions,
    frames: &Frames,
    slot: usize,
    mut head: Option<usize>,
) -> Option<usize>
    requires held { IsHeld cells.now.heap slot }
    requires lead { AllLead cells.now.heap slot }
    requires labels { AllInTable cells.now.heap regions.old }
    requires keys { OneKey regions.old }
    ensures records { regions.new.records ≡ regions.old.records }
    ensures chains { ChainsFields cells.now.heap frames.now slot
        (width (body_at cells.now.heap slot)) regions.old head regions.new result }
{
    for k in 0..cells.field_count(slot) {
        let w = cells.field(slot, k);
        head = chain_word(cells, regions, frames, w, head);
    }
    head
}

/// Chains the closed regions into which the fields of some cells lead.
pub fn chain_cells(
    cells: &Cells,
    regions: &mut Regions,
    frames: &Frames,
    slots: &[usize],
) -> Option<usize>
    requires held { (i s : ℕ) → slice_get slots.now i ≡ Some s → IsHeld cells.now.heap s }
    requires lead { (i s : ℕ) → slice_get slots.now i ≡ Some s → AllLead cells.now.heap s }
    requires labels { AllInTable cells.now.heap regions.old }
    requires keys { OneKey regions.old }
    ensures records { regions.new.records ≡ regions.old.records }
    ensures chains { ChainsCells cells.now.heap frames.now slots.now (length slots.now)
        regions.old regions.new result }
{
    let mut head = None;
    for slot in slots {
        head = chain_fields(cells, regions, frames, *slot, head);
    }
    head
}

/// Frees cells.
pub fn free_cells(cells: &mut Cells, slots: &[usize])
    requires held { (i s : ℕ) → slice_get slots.now i ≡ Some s → IsHeld cells.old.heap s }
    requires once { (i j s : ℕ) → slice_get slots.now i ≡ Some s → slice_get slots.now j ≡ Some s
        → i ≡ j }
    ensures { FirstFreed cells.old slots.now (length slots.now) cells.new }
{
    for slot in slots {
        cells.free(*slot);
    }
}

/// Releases the regions that the top window's temporaries own, and frees these.
#[inline]
pub fn end_temps(cells: &mut Cells, regions: &mut Regions, frames: &Frames)
    requires grove { Grove cells.old regions.old }
    requires begun { Begun frames.now }
    requires temps { CanLeave (record { cells = cells.old; regions = regions.old }) frames.now }
    ensures released { Released (record { cells = cells.old; regions = regions.old })
        (record { cells = cells.new; regions = regions.new })
        (GoesAlong (record { cells = cells.old; regions = regions.old }) frames.now)
        (IsTopTemp frames.now) }
    ensures grove { Grove cells.new regions.new }
{
    if frames.temps().is_empty() {
        return;
    }
    end_some_temps(cells, regions, frames);
}

// The same, also where it has some.
#[inline(never)]
fn end_some_temps(cells: &mut Cells, regions: &mut Regions, frames: &Frames)
    requires grove { Grove cells.old regions.old }
    requires begun { Begun frames.now }
    requires temps { CanLeave (record { cells = cells.old; regions = regions.old }) frames.now }
    ensures released { Released (record { cells = cells.old; regions = regions.old })
        (record { cells = cells.new; regions = regions.new })
        (GoesAlong (record { cells = cells.old; regions = regions.old }) frames.now)
        (IsTopTemp frames.now) }
    ensures grove { Grove cells.new regions.new }
{
    let head = chain_cells(cells, regions, frames, frames.temps());
    release_all(cells, regions, head);
    free_cells(cells, frames.temps());
}
