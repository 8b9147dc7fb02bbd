//! A content that is written as bytes, part by part (docs/architecture.md, "Images").

ghost use Rattle.std.specs.Prelude.{◌≡◌, ◌++◌, OnOk, option_map};
ghost use Rattle.rg_image.specs.ImageText.{counted, value_bytes, label_bytes, cell_bytes};
ghost use Rattle.rg_image.specs.ImageText.{manager_bytes, cargo_bytes, content_bytes};
ghost use Rattle.rg_image.specs.ImageText.{Counted, FitsValue, FitsManager};
ghost use Rattle.rg_image.specs.Inner.Ranges.{RangedLabel, RangedCell, RangedCargo};
ghost use Rattle.rg_image.specs.Inner.Ranges.{RangedContent};

use rg_base::{ByteList, Label, Manager, Memory, Val};
use rg_cown::{Cargo, CargoCell, Fields};
use rg_spell::{bool_number, write_i64, write_manager, write_u32, write_u64};

// Appends a value.
fn write_value(value: Val, out: &mut ByteList) -> Result<(), Memory>
    ensures text { OnOk result (out.new ≡ out.old ++ value_bytes value) }
    ensures ranges { OnOk result (FitsValue value) }
{
    match value {
        Val::Nil => out.push(0),
        Val::Int(number) => {
            out.push(1)?;
            write_i64(number, out)
        }
        Val::Bool(truth) => out.extend(&[2, bool_number(truth)]),
        Val::Obj(object) => {
            out.push(3)?;
            write_u64(object, out)
        }
    }
}

// Appends a label.
fn write_label(label: Label, out: &mut ByteList) -> Result<(), Memory>
    ensures text { OnOk result (out.new ≡ out.old ++ label_bytes label) }
    ensures ranges { OnOk result (RangedLabel label) }
{
    match label {
        Label::Region(region) => {
            out.push(0)?;
            write_u64(region, out)
        }
        Label::Temp(_) => Ok(()),
        Label::Frozen => out.push(1),
    }
}

// Appends a count of values, and the values.
fn write_values(values: &Fields, out: &mut ByteList) -> Result<(), Memory>
    ensures text { OnOk result (out.new ≡ out.old ++ counted value_bytes values.now) }
    ensures ranges { OnOk result (Counted FitsValue values.now) }
{
    write_u64(values.len() as u64, out)?;
    for k in 0..values.len() {
        let value = values.at(k);
        write_value(value, out)?;
    }
    Ok(())
}

// Appends an object.
fn write_cell(cell: &CargoCell, out: &mut ByteList) -> Result<(), Memory>
    ensures text { OnOk result (out.new ≡ out.old ++ cell_bytes cell.now) }
    ensures ranges { OnOk result (RangedCell cell.now) }
{
    write_u32(cell.class, out)?;
    write_label(cell.label, out)?;
    write_values(&cell.fields, out)?;
    Ok(())
}

// Appends a count of objects, and the objects.
fn write_cells(cells: &[CargoCell], out: &mut ByteList) -> Result<(), Memory>
    ensures text { OnOk result (out.new ≡ out.old ++ counted cell_bytes cells.now) }
    ensures ranges { OnOk result (Counted RangedCell cells.now) }
{
    write_u64(cells.len() as u64, out)?;
    for cell in cells {
        write_cell(cell, out)?;
    }
    Ok(())
}

// Appends a count of managers, and the managers.
fn write_managers(managers: &[Manager], out: &mut ByteList) -> Result<(), Memory>
    ensures text { OnOk result (out.new ≡ out.old ++ counted manager_bytes managers.now) }
    ensures ranges { OnOk result (Counted FitsManager managers.now) }
{
    write_u64(managers.len() as u64, out)?;
    for manager in managers {
        write_manager(*manager, out)?;
    }
    Ok(())
}

// Appends managers and objects.
fn write_cargo(cargo: &Cargo, out: &mut ByteList) -> Result<(), Memory>
    ensures text { OnOk result (out.new ≡ out.old ++ cargo_bytes cargo.now) }
    ensures ranges { OnOk result (RangedCargo cargo.now) }
{
    write_managers(cargo.managers(), out)?;
    write_cells(cargo.cells(), out)?;
    Ok(())
}

/// Appends a content.
pub(crate) fn write_content(content: Option<&Cargo>, out: &mut ByteList) -> Result<(), Memory>
    ensures text { OnOk result (out.new ≡ out.old ++ content_bytes (option_map (λ c. c.now) content.entry)) }
    ensures ranges { OnOk result (RangedContent (option_map (λ c. c.now) content.entry)) }
{
    match content {
        None => out.push(0),
        Some(cargo) => {
            out.push(1)?;
            write_cargo(cargo, out)
        }
    }
}
