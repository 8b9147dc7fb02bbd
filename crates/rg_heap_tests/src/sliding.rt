//! What a collection that moves its cells leaves of a small region
//! (docs/architecture.md, "A manager that moves its cells").

ghost use Rattle.std.specs.Prelude.{◌≡◌, ◌<◌, [], IfOk, OnOk};
ghost use Rattle.rg_regions.specs.Grove.{Grove};
ghost use Rattle.rg_regions.specs.Collection.{HasManager};
ghost use Rattle.rg_heap_tests.specs.Traced.{InTraced};

use crate::collections::add_cell;
use rg_base::{Manager, Steps, Word};
use rg_cells::Cells;
use rg_copy::collect;
use rg_frames::Frames;
use rg_regions::Regions;
use std::alloc::Global;
use std::marker::Brand;
use std::sync::ledger::{Blank, Ledger};
use std::test::*;

// Region 0 comes, without a bridge and without cells.
fn add_first(cells: &Cells, regions: &mut Regions) -> Result<usize, Fail>
    requires slots { cells.now.heap.slots ≡ [] }
    requires marks { cells.now.marks ≡ [] }
    requires records { regions.old.records ≡ [] }
    ensures grove { OnOk result (Grove cells.now regions.new) }
    ensures traced { IfOk result (λ key. HasManager regions.new key Manager.Trace) }
{
    let _ = cells;
    let key = regions.add(Manager::Trace)?;
    Ok(key)
}

// Four cells come, and the last one leads to the second. It answers the slot of the last.
fn add_four(cells: &mut Cells, regions: &mut Regions, key: usize) -> Result<usize, Fail>
    requires grove { Grove cells.old regions.old }
    requires traced { HasManager regions.old key Manager.Trace }
    ensures grove { OnOk result (Grove cells.new regions.new) }
    ensures cell { IfOk result (λ slot. InTraced cells.new regions.new key slot) }
{
    add_cell(cells, regions, key, Word::Nil)?;
    let second = add_cell(cells, regions, key, Word::Nil)?;
    add_cell(cells, regions, key, Word::Nil)?;
    let last = add_cell(cells, regions, key, Word::Slot(second))?;
    Ok(last)
}

// The region is collected, with main's one variable as its only root. It answers how many cells
// were kept, and what the variable holds then.
fn slide<L: Ledger>(
    alloc: Global,
    blank: Blank,
    cells: &mut Cells,
    regions: &mut Regions,
    key: usize,
    root: usize,
) -> Result<(u64, Word), Fail>
    requires name { blank.name ≡ L.name }
    requires parts { blank.parts ≡ L.parts }
    requires some { 0 < blank.parts }
    requires grove { Grove cells.old regions.old }
    requires root { InTraced cells.old regions.old key root }
{
    let mut frames = Frames::new(alloc);
    frames.begin(key, 1)?;
    frames.set_word(0, Word::Slot(root));
    let mut steps: Steps<L> = Steps::begin(blank);
    let kept = collect(cells, regions, key, &mut frames, &mut steps);
    Ok((kept.kept, frames.word(0)))
}

// Whether the cells of serials 1 and 3 stand in slots 0 and 1, the one of 3 leads to the one of 1,
// and a word leads to the one of 3. Two cells have two slots.
fn is_moved(cells: &Cells, word: Word) -> bool {
    let Some(first) = cells.find(1) else {
        return false;
    };
    let Some(third) = cells.find(3) else {
        return false;
    };
    if first > 1 {
        return false;
    }
    if third > 1 {
        return false;
    }
    if cells.field_count(third) == 0 {
        return false;
    }
    if cells.field(third, 0) != Word::Slot(first) {
        return false;
    }
    word == Word::Slot(third)
}

// How many cells were held, how many were kept by the answer and by what is held, and whether they
// have moved.
fn moved<L: Ledger>(alloc: Global, blank: Blank) -> Result<(u64, u64, u64, bool), Fail>
    requires name { blank.name ≡ L.name }
    requires parts { blank.parts ≡ L.parts }
    requires some { 0 < blank.parts }
{
    let mut cells = Cells::new(alloc);
    let mut regions = Regions::new(alloc);
    let key = add_first(&cells, &mut regions)?;
    let root = add_four(&mut cells, &mut regions, key)?;
    let held = cells.held();
    let (kept, word) = slide::<L>(alloc, blank, &mut cells, &mut regions, key, root)?;
    Ok((held, kept, cells.held(), is_moved(&cells, word)))
}

// Of four cells the only root reaches those of serials 3 and 1, which go to the lowest slots.
#[test]
fn cells_that_are_kept_move_down(rt: HostRuntime) -> Result<(), Fail> {
    let found = moved::<Brand>(rt.alloc(), Blank::new(1))?;
    assert_eq!(rt; found, (4, 2, 2, true));
    Ok(())
}
