//! A visible variable, as it is kept (docs/language.md, "Judgements").

use rg_base::Ty;

/// A variable; its depth is that at which it was added, and `self` has no name.
#[derive(Clone, Copy)]
pub struct Var {
    pub name: Option<u32>,
    pub ty: Ty,
    pub depth: u32,
    pub assignable: bool,
}
