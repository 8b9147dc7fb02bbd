//! The freeze of a region and of all that is beneath it (docs/architecture.md, "Freeze and
//! merge").

ghost use Rattle.std.specs.Prelude.{◌≡◌, ◌+◌, ℕ, List, is_some, count_by};
ghost use Rattle.rg_cells.specs.Table.{high_of};
ghost use Rattle.rg_regions.specs.Table.{Record};
ghost use Rattle.rg_regions.specs.Grove.{Grove};
ghost use Rattle.rg_move.specs.Closed.{Closed};
ghost use Rattle.rg_move.specs.Frozen.{CellsFreeze, CellsStay, RecordsGo, RecordsStay};
ghost use Rattle.rg_move.specs.Inner.Freezes.{IsReady, Turns};

use crate::labels::label_members;
use rg_base::Label;
use rg_cells::Cells;
use rg_regions::{Regions, chain_owned};

/// The first of some chained regions is frozen, and the regions that it owns come in front of
/// the others.
fn freeze_first(cells: &mut Cells, regions: &mut Regions, key: usize) -> Option<usize>
    requires { (rec : Record) × (rest : List ℕ) × IsReady cells.old.heap regions.old key rec rest }
    ensures turned { Turns cells.old regions.old key cells.new regions.new result }
    ensures count { count_by is_some regions.new.records + 1
        ≡ count_by is_some regions.old.records }
{
    let region = regions.number(key);
    let rest = regions.link(key);
    let next = chain_owned(cells, regions, key, region, rest);
    label_members(cells, regions.members(key), Label::Frozen);
    regions.remove(key);
    next
}

/// Freezes the cells of a closed region and of all regions beneath it, and removes the records of
/// these regions. Time is linear in their fields and cells, and their depth needs no stack.
pub fn freeze(cells: &mut Cells, regions: &mut Regions, key: usize)
    requires grove { Grove cells.old regions.old }
    requires closed { Closed cells.old.heap regions.old key }
    // which cells are frozen, and which regions go
    ensures frozen { CellsFreeze cells.old regions.old cells.new key }
    ensures removed { RecordsGo cells.old.heap regions.old regions.new key }
    // all else stays
    ensures cells { CellsStay cells.old regions.old cells.new key }
    ensures regions { RecordsStay cells.old.heap regions.old regions.new key }
    ensures serials { cells.new.heap.next ≡ cells.old.heap.next }
    ensures high { high_of cells.new.heap ≡ high_of cells.old.heap }
    ensures numbers { regions.new.next ≡ regions.old.next }
    ensures grove { Grove cells.new regions.new }
{
    regions.set_link(key, None);
    let mut next = Some(key);
    'next: while let Some(first) = next {
        next = freeze_first(cells, regions, first);
    }
}
