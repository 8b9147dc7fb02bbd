//! Fields by how they are written (docs/language.md, "Acceptance").

ghost use Rattle.std.specs.Prelude.{◌≡◌};
ghost use Rattle.rg_tree.specs.Rows.Tables.{Tables};
ghost use Rattle.rg_tree.specs.Rows.RowTrees as rows;
ghost use Rattle.rg_rules.specs.Headers.{is_iso_written};
ghost use Rattle.rg_rules.specs.RightSides as rules;

use rg_base::{Cap, Val};
use rg_tree::TypeRow;

/// Whether a type that is written is `iso`.
pub fn is_iso(ty: TypeRow) -> bool
    ensures { (t : Tables) → result ≡ is_iso_written (rows.type_of t ty) }
{
    match ty {
        TypeRow::Int | TypeRow::Bool => false,
        TypeRow::Ref { cap, .. } => cap == Cap::Iso,
    }
}

/// The value with which a field of a type starts.
pub(crate) fn opening_value(ty: TypeRow) -> Val
    ensures { (t : Tables) → result ≡ rules.opening_value (rows.type_of t ty) }
{
    match ty {
        TypeRow::Int => Val::Int(0),
        TypeRow::Bool => Val::Bool(false),
        TypeRow::Ref { .. } => Val::Nil,
    }
}
