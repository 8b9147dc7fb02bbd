//! Statements without blocks, raised from their code into rows (docs/architecture.md, "Modules"):
//! what `rg_verify_expressions/specs/Blocks` tells of a statement at an address, added to a program. One clause
//! serves all calls (`MakesAs` in `specs/Telling`): what is told is there as a row, with the
//! address behind it; or nothing is told, or no memory was found. `raise_fronts` raises what a statement
//! begins with, and `take_first` takes the first part of it (`specs/Fronts`); behind an object goes
//! on `object_by`, behind a place in an array `element_written`, behind a right side `taken`. All
//! else is private.
#![tactic(auto)]

mod ends;
mod fronts;
mod kinds;
mod rights;
mod row_parts;
mod said;
mod signs;
mod source;
mod types;
mod uses;

pub use fronts::{raise_fronts, take_first};
pub use kinds::{element_written, object_by, taken};
pub use rights::{array_row, made_behind};
pub use row_parts::longer_path;
pub use said::{After, Fronts, KindSaid, RightSaid, Stretch};
pub use signs::{mark_at, op_at, walk_at};
pub use source::Source;
pub use types::slot_type;
pub use uses::behind_uses;
