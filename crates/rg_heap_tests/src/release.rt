//! Regions a thousand deep are released at once (docs/architecture.md, "Release").

ghost use Rattle.std.specs.Prelude.{◌≡◌, ◌+◌, IfOk, OnOk};
ghost use Rattle.rg_regions.specs.Grove.{Grove};
ghost use Rattle.rg_heap_tests.specs.Tops.{IsTop, IsAbove, LeadsToTop};
ghost use Rattle.rg_heap_tests.specs.Traced.{InTraced};

use rg_base::{Label, Manager, Memory, Word};
use rg_cells::Cells;
use rg_regions::Regions;
use rg_release::release;

/// How many regions stand above region 0.
pub const DEPTH: u64 = 1000;

/// A region comes, with a cell that is its bridge; the cell's field leads to the region that came
/// before. It answers the region's key and its bridge.
pub fn add_top(
    cells: &mut Cells,
    regions: &mut Regions,
    word: Word,
) -> Result<(usize, usize), Memory>
    requires grove { Grove cells.old regions.old }
    requires owns { LeadsToTop cells.old regions.old word }
    ensures grove { OnOk result (Grove cells.new regions.new) }
    ensures top { IfOk result (λ made.
        IsTop cells.new regions.new regions.old.next made.0 made.1) }
    ensures cell { IfOk result (λ made. InTraced cells.new regions.new made.0 made.1) }
    ensures next { OnOk result (regions.new.next ≡ regions.old.next + 1) }
{
    let key = regions.add(Manager::Trace)?;
    let number = regions.number(key);
    regions.reserve(key, 1)?;
    let bridge = cells.make(0, Label::Region(number), &[word])?;
    regions.set_bridge(key, bridge);
    regions.push_member(key, bridge);
    Ok((key, bridge))
}

/// Region 0 comes, and above it a chain of regions, each the owner of the one before. It answers
/// the key and the bridge of the last one.
pub fn add_chain(cells: &mut Cells, regions: &mut Regions) -> Result<(usize, usize), Memory>
    requires { Grove cells.old regions.old }
    ensures grove { OnOk result (Grove cells.new regions.new) }
    ensures top { IfOk result (λ made. IsAbove cells.new regions.new made.0 made.1) }
{
    add_top(cells, regions, Word::Nil)?;
    let mut top = add_top(cells, regions, Word::Nil)?;
    'deeper: for _ in 1..DEPTH {
        top = add_top(cells, regions, Word::Slot(top.1))?;
    }
    Ok(top)
}

// Region 0 stays, and of the chain of owners above it the first one is released.
fn are_released(cells: &mut Cells, regions: &mut Regions) -> Result<bool, Memory>
    requires { Grove cells.old regions.old }
{
    let top = add_chain(cells, regions)?;
    let are_there = cells.held() == 1001 && regions.count() == 1001;
    let released = release(cells, regions, top.0);
    let is_first = released == DEPTH && regions.count() == 1 && regions.key(0) == Some(0);
    let is_left = cells.held() == 1 && cells.find(0) == Some(0) && cells.high() == 1001;
    Ok(are_there && is_first && is_left)
}

#[test]
fn a_thousand_regions_go_at_once(rt: HostRuntime) {
    let mut cells = Cells::new(rt.alloc());
    let mut regions = Regions::new(rt.alloc());
    assert!(rt; matches!(are_released(&mut cells, &mut regions), Ok(true)));
}
