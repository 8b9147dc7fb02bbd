//! A cargo that comes and is read again (docs/architecture.md, "Cargo").

ghost use Rattle.std.specs.Prelude.{◌≡◌, ◌<◌, ◌⊎◌, IfOk, OnOk, OnErr};
ghost use Rattle.rg_regions.specs.Grove.{Grove};
ghost use Rattle.rg_cown.specs.Cargo.{SoundCargo};
ghost use Rattle.rg_loaded.specs.Back.{Came, Stayed};

use rg_base::Memory;
use rg_cells::Cells;
use rg_cown::{Cargo, load, unload};
use rg_regions::Regions;
use std::alloc::Global;

/// Loads a cargo, and unloads the region that came: the same cargo. The region stays, also where
/// only the list that is read finds no memory.
pub fn loaded_and_unloaded(
    alloc: Global,
    cells: &mut Cells,
    regions: &mut Regions,
    cargo: &Cargo,
) -> Result<Cargo, Memory>
    requires sound { SoundCargo cargo.now }
    requires grove { Grove cells.old regions.old }
    requires later { 0 < regions.old.next }
    ensures same { IfOk result (λ c. c ≡ cargo.now) }
    ensures came { OnOk result
        (Came cargo.now cells.old regions.old cells.new regions.new) }
    ensures refused { OnErr result (Stayed cells.old regions.old cells.new regions.new
        ⊎ Came cargo.now cells.old regions.old cells.new regions.new) }
    ensures grove { Grove cells.new regions.new }
{
    let bridge = load(alloc, cells, regions, cargo)?;
    let cargo = unload(alloc, cells, regions, bridge)?;
    Ok(cargo)
}
