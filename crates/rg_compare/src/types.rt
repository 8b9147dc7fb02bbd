//! Whether two lists of types are the same (docs/architecture.md, "Modules").

ghost use Rattle.std.specs.Prelude.{◌≡◌};
ghost use Rattle.rg_base.specs.declared.ty.Ty.TheVariants as types;
ghost use Rattle.rg_compare.specs.Telling.{TellsSame};

use rg_base::{Cap, Ty};

// Whether a type is this reference.
fn is_reference(ty: Ty, cap: Cap, class: u32) -> bool
    ensures { TellsSame result (types.Ref cap class) ty }
{
    let Ty::Ref {
        cap: found,
        class: number,
    } = ty
    else {
        return false;
    };
    if cap != found {
        return false;
    }
    if class != number {
        return false;
    }
    true
}

// Whether two types are the same.
fn same_type(one: Ty, other: Ty) -> bool
    ensures { TellsSame result one other }
{
    match one {
        Ty::Int => matches!(other, Ty::Int),
        Ty::Bool => matches!(other, Ty::Bool),
        Ty::Ref { cap, class } => is_reference(other, cap, class),
    }
}

/// Whether two types that needn't be there are the same.
pub(crate) fn same_option(one: Option<Ty>, other: Option<Ty>) -> bool
    ensures { TellsSame result one other }
{
    let Some(a) = one else {
        return other.is_none();
    };
    let Some(b) = other else {
        return false;
    };
    same_type(a, b)
}

/// Whether two lists of types are the same.
pub(crate) fn same_types(one: &[Ty], other: &[Ty]) -> bool
    ensures { TellsSame result one.now other.now }
{
    if one.len() != other.len() {
        return false;
    }
    let mut at = 0;
    while at < one.len() {
        if !same_type(one[at], other[at]) {
            return false;
        }
        at += 1;
    }
    true
}
