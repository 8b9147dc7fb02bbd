//! Whether two modules are the same (docs/architecture.md, "Modules"). `same` compares the parts of
//! two modules, one after the other: the managers, the classes, the heads of the methods, the code
//! and the maps. The first is one that some bytes spell (`IsSpelt`), so its counts have 32 bits. It
//! takes time that is linear in the smaller of the two, and no memory. All else in the crate is
//! private.
#![tactic(auto)]

mod code;
mod operands;
mod rows;
mod types;
mod whole;

pub use whole::same;
