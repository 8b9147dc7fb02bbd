//! What statements are raised from (docs/architecture.md, "Modules").

use rg_module::Module;
use rg_verify_expressions::{Body, Callee};

/// What stays along a body: the module with its code and its maps, and the methods of the module.
#[derive(Drop)]
pub struct Source<'a> {
    pub body: Body,
    pub parts: &'a Module,
    /// in order of their numbers
    pub methods: &'a [Callee],
}
