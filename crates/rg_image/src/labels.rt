//! Labels of a content's objects (docs/architecture.md, "Images").

ghost use Rattle.std.specs.Prelude.{◌≡◌};
ghost use Rattle.rg_cown.specs.Cargo as cargo;

use rg_base::Label;
use rg_cown::CargoCell;

/// What the object of a number is labelled with, if there is one.
#[inline(always)]
pub(crate) fn label_of(cells: &[CargoCell], object: u64) -> Option<Label>
    ensures { result ≡ cargo.label_of cells.now object }
{
    let Some(cell) = cells.get(object as usize) else {
        return None;
    };
    Some(cell.label)
}

/// Whether a label, if there is one, is that of a region.
#[inline(always)]
pub(crate) fn is_in(region: u64, label: Option<Label>) -> bool
    ensures { result ≡ cargo.is_in region label }
{
    match label {
        Some(Label::Region(own)) => own == region,
        Some(Label::Temp(_)) => false,
        Some(Label::Frozen) => false,
        None => false,
    }
}

/// Whether a label, if there is one, is frozen.
#[inline(always)]
pub(crate) fn is_frozen(label: Option<Label>) -> bool
    ensures { result ≡ cargo.is_frozen label }
{
    match label {
        Some(Label::Region(_)) => false,
        Some(Label::Temp(_)) => false,
        Some(Label::Frozen) => true,
        None => false,
    }
}
