//! Whether two modules are the same (docs/architecture.md, "Modules").

ghost use Rattle.rg_module.specs.Spelling.{IsSpelt};
ghost use Rattle.rg_compare.specs.Telling.{TellsSame};

use crate::code::same_code;
use crate::rows::{same_heads, same_shapes};
use crate::types::same_types;
use rg_base::Manager;
use rg_module::Module;

// Whether two managers are the same.
fn same_manager(one: Manager, other: Manager) -> bool
    ensures { TellsSame result one other }
{
    if one != other {
        return false;
    }
    true
}

// Whether the maps of the instructions are the same.
fn same_maps(one: &Module, other: &Module) -> bool
    ensures { TellsSame result «one».now.maps «other».now.maps }
{
    if one.op_count() != other.op_count() {
        return false;
    }
    let mut at = 0;
    while at < one.op_count() {
        if !same_types(one.map_at(at), other.map_at(at)) {
            return false;
        }
        at += 1;
    }
    true
}

/// Whether two modules are the same, of which some bytes spell the one, as one that `decode` reads,
/// or `build` makes.
pub fn same(one: &Module, other: &Module) -> bool
    requires { IsSpelt «one».now }
    ensures { TellsSame result «one».now «other».now }
{
    if !same_manager(one.manager(), other.manager()) {
        return false;
    }
    if !same_shapes(one.classes(), other.classes()) {
        return false;
    }
    if !same_heads(one.methods(), other.methods()) {
        return false;
    }
    if !same_code(one.code(), other.code()) {
        return false;
    }
    if !same_maps(one, other) {
        return false;
    }
    true
}
