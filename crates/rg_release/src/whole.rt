//! The release of regions and of all that is beneath them (docs/architecture.md, "Release").

ghost use Rattle.std.specs.Prelude.{◌≡◌, ◌+◌, ℕ, Some, List, ◌∷◌, is_some, count_by};
ghost use Rattle.rg_cells.specs.Table.{high_of};
ghost use Rattle.rg_regions.specs.Table.{Chained};
ghost use Rattle.rg_regions.specs.Grove.{Grove};
ghost use Rattle.rg_release.specs.Released.{Unowned, OnChain};
ghost use Rattle.rg_release.specs.Released.{CellsGo, CellsStay, RecordsGo, RecordsStay};
ghost use Rattle.rg_release.specs.Inner.Turns.{Turns};

use crate::freeing::free_members;
use rg_cells::Cells;
use rg_regions::{Regions, chain_owned};

/// The first of some chained regions goes, and the regions that it owns come in front of the
/// others.
fn release_first(cells: &mut Cells, regions: &mut Regions, key: usize) -> Option<usize>
    requires grove { Grove cells.old regions.old }
    requires unowned { (rest : List ℕ) × Chained regions.old.links (Some key) (key ∷ rest)
        × Unowned cells.old.heap regions.old (key ∷ rest) }
    ensures turned { Turns cells.old regions.old key cells.new regions.new result }
    ensures count { count_by is_some regions.new.records + 1
        ≡ count_by is_some regions.old.records }
{
    let region = regions.number(key);
    let rest = regions.link(key);
    let next = chain_owned(cells, regions, key, region, rest);
    free_members(cells, regions.members(key));
    regions.remove(key);
    next
}

/// Releases closed regions, chained by their links from a head, and all regions beneath them;
/// answers how many they were. Time is linear in the fields and cells of these regions, and
/// their depth needs no stack.
pub fn release(cells: &mut Cells, regions: &mut Regions, head: usize) -> u64
    requires grove { Grove cells.old regions.old }
    requires unowned { (keys : List ℕ) × Chained regions.old.links (Some head) keys
        × Unowned cells.old.heap regions.old keys }
    // which cells and which regions go
    ensures freed { OnChain regions.old head (CellsGo cells.old regions.old cells.new) }
    ensures removed { OnChain regions.old head
        (RecordsGo cells.old.heap regions.old regions.new) }
    ensures count { result + count_by is_some regions.new.records
        ≡ count_by is_some regions.old.records }
    // all else stays
    ensures cells { OnChain regions.old head (CellsStay cells.old regions.old cells.new) }
    ensures regions { OnChain regions.old head
        (RecordsStay cells.old.heap regions.old regions.new) }
    ensures serials { cells.new.heap.next ≡ cells.old.heap.next }
    ensures high { high_of cells.new.heap ≡ high_of cells.old.heap }
    ensures numbers { regions.new.next ≡ regions.old.next }
    ensures grove { Grove cells.new regions.new }
{
    let before = regions.count();
    let mut next = Some(head);
    'next: while let Some(key) = next {
        next = release_first(cells, regions, key);
    }
    (before - regions.count()) as u64
}
