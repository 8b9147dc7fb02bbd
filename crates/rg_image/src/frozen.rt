//! Whether a frozen object leads to frozen ones alone (docs/architecture.md, "Images").

ghost use Rattle.std.specs.Prelude.{◌≡◌};
ghost use Rattle.std.specs.List.{list_all};
ghost use Rattle.rg_cown.specs.Cargo as cargo;

use crate::labels::{is_frozen, label_of};
use rg_base::{Label, Val};
use rg_cown::{CargoCell, Fields};

// Whether a value may stand in a frozen object.
#[inline(always)]
fn stays_frozen(cells: &[CargoCell], value: Val) -> bool
    ensures { result ≡ cargo.stays_frozen cells.now value }
{
    match value {
        Val::Nil | Val::Int(_) | Val::Bool(_) => true,
        Val::Obj(object) => is_frozen(label_of(cells, object)),
    }
}

// Whether values may stand in a frozen object.
fn all_stay_frozen(cells: &[CargoCell], fields: &Fields) -> bool
    ensures { result ≡ list_all (cargo.stays_frozen cells.now) fields.now }
{
    for k in 0..fields.len() {
        let value = fields.at(k);
        if !stays_frozen(cells, value) {
            return false;
        }
    }
    true
}

/// Whether the fields of an object may lead where they do, if it is frozen.
#[inline(always)]
pub(crate) fn frozen_fits(cells: &[CargoCell], own: Label, fields: &Fields) -> bool
    ensures { result ≡ cargo.frozen_fits cells.now own fields.now }
{
    match own {
        Label::Region(_) | Label::Temp(_) => true,
        Label::Frozen => all_stay_frozen(cells, fields),
    }
}
