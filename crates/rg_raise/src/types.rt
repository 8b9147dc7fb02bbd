//! Types of variables (docs/architecture.md, "Modules").

ghost use Rattle.std.specs.Prelude.{◌≡◌};
ghost use Rattle.rg_verify_expressions.specs.Statements as statements;
ghost use Rattle.rg_verify_expressions.specs.Blocks as blocks;

use crate::signs::mark_at;
use rg_base::Ty;
use rg_module::Module;

/// The type of the variable in a slot, by the map of the mark at an address.
pub fn slot_type(source: &Module, at: usize, slot: u32) -> Option<Ty>
    ensures { result ≡ blocks.slot_type source.now.code.ops source.now.maps at slot }
{
    mark_at(source.code(), at)?;
    let types = source.map(at);
    types.get(slot as usize).copied()
}

/// The type of the variable in a slot, where there is one.
pub(crate) fn type_at(types: &Vec<Ty>, slot: u32) -> Ty
    ensures { result ≡ statements.type_at types.now.items slot }
{
    match types.get(slot as usize) {
        Some(ty) => *ty,
        None => Ty::Int,
    }
}
