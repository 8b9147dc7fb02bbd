//! What the rules ask of a type (docs/language.md, "Judgements").

ghost use Rattle.std.specs.Prelude.{◌≡◌, ◌<◌, List, length, IfSome};
ghost use Rattle.rg_tree.specs.Tree.{Class};
ghost use Rattle.rg_rules.specs.Capabilities as tables;
ghost use Rattle.rg_names.specs.TreeAnswers.{IsKnown};

use rg_base::{Cap, Ty};
use rg_rules::below;

/// Whether a type is `iso`.
pub fn is_iso(ty: Ty) -> bool
    ensures { result ≡ tables.is_iso ty }
{
    match ty {
        Ty::Int | Ty::Bool => false,
        Ty::Ref { cap, .. } => cap == Cap::Iso,
    }
}

/// The class of an `iso` type.
pub fn iso_class(ty: Ty) -> Option<u32>
    ensures class { result ≡ tables.iso_class ty }
    ensures known { (classes : List Class) → IsKnown classes ty
        → IfSome result (λ c. c < length classes) }
{
    match ty {
        Ty::Int | Ty::Bool => None,
        Ty::Ref { cap, class } => match cap {
            Cap::Mut | Cap::Tmp | Cap::Paused | Cap::Imm => None,
            Cap::Iso => Some(class),
        },
    }
}

/// Whether a variable of a type may be assigned only at the depth at which it was added.
pub fn stays_at_depth(ty: Ty) -> bool
    ensures { result ≡ tables.stays_at_depth ty }
{
    match ty {
        Ty::Int | Ty::Bool => false,
        Ty::Ref { cap, .. } => match cap {
            Cap::Mut | Cap::Tmp | Cap::Paused => true,
            Cap::Imm | Cap::Iso => false,
        },
    }
}

/// Whether a value may be printed.
pub fn is_printable(ty: Ty) -> bool
    ensures { result ≡ tables.printable ty }
{
    match ty {
        Ty::Int | Ty::Bool => true,
        Ty::Ref { .. } => false,
    }
}

/// Whether two types are the same.
pub fn is_same_type(a: Ty, b: Ty) -> bool
    ensures { result ≡ tables.same_type a b }
{
    below(a, b) && below(b, a)
}
