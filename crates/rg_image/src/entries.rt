//! Whether one field leads into each region from outside, and none into region 0
//! (docs/architecture.md, "Images"). Fields are counted by region, up to two.

ghost use Rattle.std.specs.Prelude.{◌≡◌, ◌==◌, ℕ, [], ◌∷◌, length, IfOk, if◌then◌else◌};
ghost use Rattle.std.specs.List.{list_all, range_with_len};
ghost use Rattle.rg_cown.specs.Cargo.{entries, entries_of, is_entered, label_of};
ghost use Rattle.rg_image.specs.Inner.Entries.{Adds, enters, are_right, region_in};

use crate::labels::label_of;
use rg_base::{Label, Manager, Memory, Val};
use rg_cown::{CargoCell, Fields};
use std::alloc::Global;

// more than one is too many
const MANY: u8 = 2;

// One entry more into a region.
#[inline(always)]
fn count_entry(counts: &mut Vec<u8>, region: u64)
    ensures { Adds counts.old.items counts.new.items (λ r. if region == r then 1 else 0) }
{
    let place = region as usize;
    if place >= counts.len() {
        return;
    }
    let count = counts[place];
    if count < MANY {
        counts[place] = count + 1;
    }
}

// Whether a field of an object with a label that leads into a region enters it.
#[inline(always)]
fn enters(own: Label, region: u64) -> bool
    ensures { result ≡ enters own region }
{
    match own {
        Label::Region(from) => from != region,
        Label::Temp(_) => true,
        Label::Frozen => false,
    }
}

// The region in which an object lies, if it is there and in one.
#[inline(always)]
fn region_of(cells: &[CargoCell], object: u64) -> Option<u64>
    ensures { result ≡ region_in (label_of cells.now object) }
{
    match label_of(cells, object) {
        Some(Label::Region(region)) => Some(region),
        Some(Label::Temp(_)) => None,
        Some(Label::Frozen) => None,
        None => None,
    }
}

// The entry that a value of an object with a label is, if it is one.
#[inline(always)]
fn count_value(cells: &[CargoCell], own: Label, value: Val, counts: &mut Vec<u8>)
    ensures { Adds counts.old.items counts.new.items
        (λ r. entries_of cells.now r own (value ∷ [])) }
{
    let Val::Obj(object) = value else {
        return;
    };
    let Some(region) = region_of(cells, object) else {
        return;
    };
    if enters(own, region) {
        count_entry(counts, region);
    }
}

// The entries that the fields of an object with a label are.
#[inline(always)]
fn count_fields(cells: &[CargoCell], own: Label, fields: &Fields, counts: &mut Vec<u8>)
    ensures { Adds counts.old.items counts.new.items (λ r. entries_of cells.now r own fields.now) }
{
    for k in 0..fields.len() {
        let value = fields.at(k);
        count_value(cells, own, value, counts);
    }
}

// The entries that the fields of all objects are.
#[inline(never)]
fn count_all(cells: &[CargoCell], counts: &mut Vec<u8>)
    ensures { Adds counts.old.items counts.new.items (λ r. entries cells.now r) }
{
    for cell in cells {
        count_fields(cells, cell.label, &cell.fields, counts);
    }
}

// How many fields enter a region.
fn wanted(region: usize) -> u8
    ensures { result ≡ (if region == 0 then 0 else 1) }
{
    if region == 0 { 0 } else { 1 }
}

// Whether as many enter each region as may.
fn are_right(counts: &[u8]) -> bool
    ensures { result ≡ are_right 0 counts.now }
{
    for region in 0..counts.len() {
        if counts[region] != wanted(region) {
            return false;
        }
    }
    true
}

/// Whether one field enters each region but region 0, and none region 0.
pub(crate) fn each_is_entered(
    alloc: Global,
    cells: &[CargoCell],
    managers: &[Manager],
) -> Result<bool, Memory>
    ensures { IfOk result (λ yes. yes
        ≡ list_all (is_entered cells.now) (range_with_len 0 (length managers.now))) }
{
    let Ok(mut counts) = vec![in alloc; 0; managers.len()] else {
        return Err(Memory);
    };
    count_all(cells, &mut counts);
    Ok(are_right(counts.as_slice()))
}
