//! The methods of a module, as calls need them (docs/architecture.md, "Modules").

use rg_base::Ty;

/// A method: its number through the whole program and that in its class, and the type of its
/// result, if it has one.
#[derive(Clone, Copy)]
pub struct Callee {
    pub number: u32,
    pub place: u32,
    pub result: Option<Ty>,
}
