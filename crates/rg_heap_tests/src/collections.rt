//! What mark and sweep keeps of small regions (docs/architecture.md, "Tests").

ghost use Rattle.std.specs.Prelude.{◌≡◌, ◌<◌, ℕ, Some, IfOk, OnOk, slice_get};
ghost use Rattle.rg_regions.specs.Grove.{Grove};
ghost use Rattle.rg_regions.specs.Collection.{HasManager};
ghost use Rattle.rg_heap_tests.specs.Traced.{InTraced, AllTraced};

use crate::release::add_top;
use rg_base::{Label, Manager, Memory, Steps, Word};
use rg_cells::Cells;
use rg_regions::Regions;
use rg_trace::collect;
use std::alloc::Global;
use std::marker::Brand;
use std::sync::ledger::{Blank, Ledger};
use std::test::*;

// Cell 0 is the bridge. A row says where the field of each further cell leads, to which cell a slot
// leads, and how many cells are kept; 9 is no cell.
type Row = ([usize; 4], usize, u64);

static ROWS: [Row; 6] = [
    ([9, 9, 9, 9], 9, 1),
    ([9, 9, 9, 9], 3, 2),
    ([0, 1, 2, 3], 9, 1),
    ([0, 1, 2, 3], 4, 5),
    ([0, 1, 2, 3], 2, 3),
    ([9, 1, 1, 2], 4, 4),
];

/// A cell comes into a region, with one field.
pub fn add_cell(
    cells: &mut Cells,
    regions: &mut Regions,
    key: usize,
    word: Word,
) -> Result<usize, Memory>
    requires grove { Grove cells.old regions.old }
    requires traced { HasManager regions.old key Manager.Trace }
    requires leads { (s : ℕ) → word ≡ Word.Slot s → InTraced cells.old regions.old key s }
    ensures grove { OnOk result (Grove cells.new regions.new) }
    ensures cell { IfOk result (λ slot. InTraced cells.new regions.new key slot) }
    ensures others { OnOk result ((s : ℕ) → InTraced cells.old regions.old key s
        → InTraced cells.new regions.new key s) }
{
    let number = regions.number(key);
    regions.reserve(key, 1)?;
    let slot = cells.make(0, Label::Region(number), &[word])?;
    regions.push_member(key, slot);
    Ok(slot)
}

// The word that leads to the cell of a number, where there is one.
fn word_to(slots: &[usize], number: usize) -> Word
    ensures { (s : ℕ) → result ≡ Word.Slot s → slice_get slots.now number ≡ Some s }
{
    match slots.get(number) {
        Some(slot) => Word::Slot(*slot),
        None => Word::Nil,
    }
}

// The cells of a row come behind the bridge.
fn add_cells(
    alloc: Global,
    cells: &mut Cells,
    regions: &mut Regions,
    key: usize,
    bridge: usize,
    row: &[usize],
) -> Result<Vec<usize>, Fail>
    requires grove { Grove cells.old regions.old }
    requires bridge { InTraced cells.old regions.old key bridge }
    ensures grove { OnOk result (Grove cells.new regions.new) }
    ensures traced { OnOk result (HasManager regions.new key Manager.Trace) }
    ensures slots { IfOk result (λ slots. AllTraced cells.new regions.new key slots.items) }
{
    let mut slots = Vec::new(alloc);
    slots.push(bridge)?;
    for to in row {
        let word = word_to(&slots, *to);
        let slot = add_cell(cells, regions, key, word)?;
        slots.push(slot)?;
    }
    Ok(slots)
}

// How many cells of a row are kept, by the answer and by what is held.
fn kept<L: Ledger>(
    alloc: Global,
    blank: Blank,
    cells: &mut Cells,
    regions: &mut Regions,
    row: &[usize],
    root: usize,
) -> Result<(u64, u64), Fail>
    requires name { blank.name ≡ L.name }
    requires parts { blank.parts ≡ L.parts }
    requires some { 0 < blank.parts }
    requires grove { Grove cells.old regions.old }
{
    let (key, bridge) = add_top(cells, regions, Word::Nil)?;
    let slots = add_cells(alloc, cells, regions, key, bridge, row)?;
    let word = word_to(&slots, root);
    let mut steps: Steps<L> = Steps::begin(blank);
    let kept = collect(cells, regions, key, &[word], &[], &mut steps);
    Ok((kept.kept, cells.held()))
}

// Whether as many cells are kept as a row says.
fn is_kept(alloc: Global, row: &Row) -> Result<bool, Fail> {
    let (leads, root, want) = *row;
    let mut cells = Cells::new(alloc);
    let mut regions = Regions::new(alloc);
    let found = kept::<Brand>(alloc, Blank::new(1), &mut cells, &mut regions, &leads, root)?;
    Ok(found.0 == want && found.1 == want)
}

#[test]
fn what_the_roots_reach_is_kept(rt: HostRuntime) -> Result<(), Fail> {
    for row in &ROWS {
        assert!(rt; is_kept(rt.alloc(), row)?, "{} with {}", row.2, row.1);
    }
    Ok(())
}
