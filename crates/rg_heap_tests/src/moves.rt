//! Regions a thousand deep are frozen at once, and ample memory is enough for a merge
//! (docs/architecture.md, "Freeze and merge").

ghost use Rattle.rg_regions.specs.Grove.{Grove};

use crate::release::{DEPTH, add_chain, add_top};
use rg_base::{Memory, Word};
use rg_cells::Cells;
use rg_move::{freeze, merge};
use rg_regions::Regions;

// Region 0 stays, and of the chain of owners above it the first one is frozen.
fn are_frozen(cells: &mut Cells, regions: &mut Regions) -> Result<bool, Memory>
    requires { Grove cells.old regions.old }
{
    let top = add_chain(cells, regions)?;
    let are_there = cells.frozen() == 0 && regions.count() == 1001;
    freeze(cells, regions, top.0);
    let are_left = cells.frozen() == DEPTH && cells.held() == 1001;
    Ok(are_there && are_left && regions.count() == 1 && regions.key(0) == Some(0))
}

#[test]
fn a_thousand_regions_are_frozen_at_once(rt: HostRuntime) {
    let mut cells = Cells::new(rt.alloc());
    let mut regions = Regions::new(rt.alloc());
    assert!(rt; matches!(are_frozen(&mut cells, &mut regions), Ok(true)));
}

// The owner of another region goes into region 0, which has two cells then; the other one stays.
fn goes_into_first(cells: &mut Cells, regions: &mut Regions) -> Result<bool, Memory>
    requires { Grove cells.old regions.old }
{
    add_top(cells, regions, Word::Nil)?;
    let beneath = add_top(cells, regions, Word::Nil)?;
    let top = add_top(cells, regions, Word::Slot(beneath.1))?;
    if let Some(first) = regions.key(0) {
        merge(cells, regions, top.0, first)?;
    }
    let are_two = match regions.key(0) {
        Some(first) => regions.members(first).len() == 2,
        None => false,
    };
    let is_left = regions.key(1) == Some(beneath.0) && regions.key(2).is_none();
    Ok(are_two && is_left && cells.held() == 3 && regions.count() == 2)
}

#[test]
fn a_region_goes_into_the_first_one(rt: HostRuntime) {
    let mut cells = Cells::new(rt.alloc());
    let mut regions = Regions::new(rt.alloc());
    assert!(rt; matches!(goes_into_first(&mut cells, &mut regions), Ok(true)));
}
