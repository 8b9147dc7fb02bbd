//! Which capabilities go with a class, which is a tmp class or an ordinary one (docs/language.md,
//! "Headers").

ghost use Rattle.std.specs.Prelude.{◌≡◌};
ghost use Rattle.rg_rules.specs.Types.{suits_class};
ghost use Rattle.rg_rules.specs.Headers.{suits_field, suits_receiver};

use rg_base::Cap;

/// Whether a type of that capability may name the class.
pub fn names_class(cap: Cap, is_tmp: bool) -> bool
    ensures { result ≡ suits_class cap is_tmp }
{
    match cap {
        Cap::Mut => !is_tmp,
        Cap::Tmp => is_tmp,
        Cap::Paused => true,
        Cap::Imm => !is_tmp,
        Cap::Iso => !is_tmp,
    }
}

/// Whether a field of that capability may stand in the class.
pub fn is_field_of(cap: Cap, is_tmp: bool) -> bool
    ensures { result ≡ suits_field cap is_tmp }
{
    match cap {
        Cap::Tmp | Cap::Paused => is_tmp,
        Cap::Mut | Cap::Imm | Cap::Iso => true,
    }
}

/// Whether a receiver of that capability may stand in the class.
pub fn is_receiver_of(cap: Cap, is_tmp: bool) -> bool
    ensures { result ≡ suits_receiver cap is_tmp }
{
    match cap {
        Cap::Mut => !is_tmp,
        Cap::Tmp => is_tmp,
        Cap::Paused => true,
        Cap::Imm => !is_tmp,
        Cap::Iso => false,
    }
}
