//! The tables of the capabilities (docs/language.md, "Capabilities").

ghost use Rattle.std.specs.Prelude.{◌≡◌};
ghost use Rattle.rg_rules.specs.Capabilities as tables;

use rg_base::{Cap, Ty};

/// What a field permits that is read through a receiver; None where it can't be read.
pub fn adapt(receiver: Cap, field: Cap) -> Option<Cap>
    ensures { result ≡ tables.adapt receiver field }
{
    match receiver {
        Cap::Mut => match field {
            Cap::Mut | Cap::Imm | Cap::Iso => Some(field),
            Cap::Tmp | Cap::Paused => None,
        },
        Cap::Tmp => Some(field),
        Cap::Paused => match field {
            Cap::Mut | Cap::Tmp | Cap::Paused => Some(Cap::Paused),
            Cap::Imm => Some(Cap::Imm),
            Cap::Iso => None,
        },
        Cap::Imm => match field {
            Cap::Mut | Cap::Imm | Cap::Iso => Some(Cap::Imm),
            Cap::Tmp | Cap::Paused => None,
        },
        Cap::Iso => None,
    }
}

/// Whether a value of the lower type may stand where the upper type is expected.
pub fn below(lower: Ty, upper: Ty) -> bool
    ensures { result ≡ tables.below lower upper }
{
    match (lower, upper) {
        (Ty::Int, Ty::Int) | (Ty::Bool, Ty::Bool) => true,
        (
            Ty::Ref { cap, class },
            Ty::Ref {
                cap: above,
                class: other,
            },
        ) => class == other && below_cap(cap, above),
        (Ty::Int, Ty::Bool | Ty::Ref { .. })
        | (Ty::Bool, Ty::Int | Ty::Ref { .. })
        | (Ty::Ref { .. }, Ty::Int | Ty::Bool) => false,
    }
}

/// Whether a reference of the lower capability may stand where the upper one is expected.
fn below_cap(lower: Cap, upper: Cap) -> bool
    ensures { result ≡ tables.below_cap lower upper }
{
    match upper {
        Cap::Paused => lower != Cap::Iso,
        Cap::Mut | Cap::Tmp | Cap::Imm | Cap::Iso => lower == upper,
    }
}

/// The type as which a variable is seen inside a window that was opened behind it.
pub fn pause(t: Ty) -> Ty
    ensures { result ≡ tables.pause t }
{
    match t {
        Ty::Int | Ty::Bool => t,
        Ty::Ref { cap, class } => Ty::Ref {
            cap: pause_cap(cap),
            class,
        },
    }
}

/// What a reference permits inside a window that was opened behind it.
fn pause_cap(cap: Cap) -> Cap
    ensures { result ≡ tables.pause_cap cap }
{
    match cap {
        Cap::Mut | Cap::Tmp | Cap::Paused => Cap::Paused,
        Cap::Imm | Cap::Iso => cap,
    }
}
