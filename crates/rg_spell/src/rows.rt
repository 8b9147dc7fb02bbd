//! What a module says of classes and methods (docs/architecture.md, "Modules").

use crate::tys::Tys;
use rg_base::{Cap, Ty};

/// A class: whether it is a tmp class, the types of its fields in source order, and the type of its
/// elements where it is an array class, which has no fields.
#[derive(Drop)]
pub struct Shape {
    pub is_tmp: bool,
    pub fields: Tys,
    pub element: Option<Ty>,
}

/// A method: its class, by number, its receiver, and the types of its parameters and its result.
#[derive(Drop)]
pub struct Head {
    pub class: u32,
    pub cap: Cap,
    pub params: Tys,
    pub result: Option<Ty>,
}
