//! Where statements end (docs/architecture.md, "Modules").

ghost use Rattle.std.specs.Prelude.{◌≡◌};
ghost use Rattle.rg_verify_expressions.specs.Blocks.{paced, dropped};

use crate::signs::{left_at, pace_at};
use crate::uses::is_iso;
use rg_base::Ty;
use rg_code::CodeList;

/// The address behind what asks a pacer, where one is asked.
pub(crate) fn behind_pace(code: &CodeList, paces: bool, at: usize) -> Option<usize>
    ensures { result ≡ paced code.now.ops paces at }
{
    if !paces {
        return Some(at);
    }
    pace_at(code, at)?;
    Some(at + 1)
}

/// The address behind what drops a result, where there is one.
pub(crate) fn behind_dropped(code: &CodeList, ty: Option<Ty>, at: usize) -> Option<usize>
    ensures { result ≡ dropped code.now.ops ty at }
{
    let Some(ty) = ty else {
        return Some(at);
    };
    let owns = left_at(code, at)?;
    if owns != is_iso(ty) {
        return None;
    }
    Some(at + 1)
}
