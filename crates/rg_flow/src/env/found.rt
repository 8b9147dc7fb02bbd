//! What is found of a variable (docs/language.md, "Judgements").

ghost use Rattle.std.specs.Prelude.{◌<◌, ◌≤◌, length};
ghost use Rattle.rg_flow.specs.Inner.Layout.{IsFoundAt};

use super::states::{State, read_state};
use super::var::Var;
use crate::flow::Flow;
use rg_base::Ty;

/// A visible variable.
#[derive(Clone, Copy)]
pub struct Found {
    pub ty: Ty,
    pub depth: u32,
    pub state: State,
    pub assignable: bool,
}

/// The variable at a place.
pub fn found_at(vars: &[Var], flow: &Flow, place: u32) -> Found
    requires place { place < length vars.now }
    requires few { length vars.now ≤ 256 }
    ensures { IsFoundAt vars.now flow.now place result }
{
    let var = vars[place as usize];
    Found {
        ty: var.ty,
        depth: var.depth,
        state: read_state(flow, place),
        assignable: var.assignable,
    }
}
