//! What is loaded is unloaded as the same list, and ample memory is enough for both
//! (docs/architecture.md, "Cargo").

ghost use Rattle.std.specs.Prelude.{◌≡◌, ◌∷◌, [], IfOk};
ghost use Rattle.rg_base.specs.declared.value.Val.TheVariants.{Obj};
ghost use Rattle.rg_regions.specs.Grove.{Grove};
ghost use Rattle.rg_cown.specs.Cargo.{SoundCargo};

use crate::release::add_top;
use rg_base::{Label, Manager, Memory, Val, Word};
use rg_cells::Cells;
use rg_cown::{Cargo, CargoCell, Fields, load, unload};
use rg_regions::Regions;
use std::alloc::Global;

// An object whose one field leads to object 1.
fn object(alloc: Global, label: Label) -> Result<CargoCell, Memory>
    ensures { IfOk result (λ c. c ≡ record { class = 3; label = label; fields = Obj 1 ∷ [] }) }
{
    let mut fields = Fields::new(alloc);
    fields.push(Val::Obj(1))?;
    Ok(CargoCell {
        class: 3,
        label,
        fields,
    })
}

// An object of a region leads to a frozen one, which leads to itself.
fn two_objects(alloc: Global) -> Result<Cargo, Memory>
    ensures { IfOk result (λ c. SoundCargo c) }
{
    let mut cargo = Cargo::new(alloc);
    cargo.add_manager(Manager::Count)?;
    let first = object(alloc, Label::Region(0))?;
    cargo.add_cell(first)?;
    let second = object(alloc, Label::Frozen)?;
    cargo.add_cell(second)?;
    Ok(cargo)
}

fn is_object(cell: &CargoCell, label: Label) -> bool {
    let leads_on = cell.fields.len() == 1 && cell.fields.get(0) == Some(Val::Obj(1));
    cell.class == 3 && cell.label == label && leads_on
}

fn are_two(cargo: &Cargo) -> bool {
    let [first, second] = cargo.cells() else {
        return false;
    };
    let are_same = is_object(first, Label::Region(0)) && is_object(second, Label::Frozen);
    are_same && matches!(cargo.managers(), [Manager::Count])
}

// Beside region 0 a region comes with its frozen object, and is read.
fn comes_back(alloc: Global, cells: &mut Cells, regions: &mut Regions) -> Result<bool, Memory>
    requires { Grove cells.old regions.old }
{
    add_top(cells, regions, Word::Nil)?;
    let cargo = two_objects(alloc)?;
    let bridge = load(alloc, cells, regions, &cargo)?;
    let are_there = cells.held() == 3 && cells.frozen() == 1 && regions.count() == 2;
    let again = unload(alloc, cells, regions, bridge)?;
    Ok(are_there && are_two(&again))
}

#[test]
fn what_is_loaded_is_unloaded(rt: HostRuntime) {
    let mut cells = Cells::new(rt.alloc());
    let mut regions = Regions::new(rt.alloc());
    assert!(rt; matches!(comes_back(rt.alloc(), &mut cells, &mut regions), Ok(true)));
}
