//! Variables and bridges (docs/architecture.md, "Modules").

ghost use Rattle.std.specs.Prelude.{◌≡◌};
ghost use Rattle.rg_verify_expressions.specs.Blocks as blocks;

use rg_base::{Cap, Ty};

/// The class of a bridge.
pub(crate) fn bridge_class(ty: Ty) -> Option<u32>
    ensures { result ≡ blocks.bridge_class ty }
{
    match ty {
        Ty::Int | Ty::Bool => None,
        Ty::Ref { cap, class } => match cap {
            Cap::Mut => Some(class),
            Cap::Tmp | Cap::Paused | Cap::Imm | Cap::Iso => None,
        },
    }
}
