//! Cells under slots that are used again (docs/architecture.md, "Cells"). `Cells` is a finite map
//! from held slots to bodies; `make` takes a freed slot where there is one, and each other call
//! changes what its name says at one slot and takes no memory.
#![tactic(auto)]

mod cell;
mod cells;
mod fields;
mod places;

pub use cell::Body;
pub use cells::Cells;
pub use fields::Fields;
