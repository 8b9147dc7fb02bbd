//! The code of a program, with what a stepper must know of classes and methods (docs/language.md,
//! "Instructions and lowering"). `CodeList` is a list of `Op` with openings, entries and main's
//! number of slots: what a call changes is exact, and a refused one leaves it as it was.
//! `find_shapes` changes nothing of that; `shape` says what stands at an address, where it is known
//! (`IsShape`), and `target` where the calls of a method go (`IsTarget`). `number_of`, `name_of` and
//! `operands_of` say what stands in an instruction (`specs/Operands`), and `above` which slots it
//! needs. `listing` gives the text of `specs/Listing`; `specs/Lowering` has a tree's code.
#![tactic(auto)]

mod code;
mod computes;
mod dues;
mod elements;
mod fields;
mod headings;
mod instructions;
mod loops;
mod moves;
mod op;
mod operands;
mod shape;
mod shapes;
mod sums;
mod targets;
mod texts;
mod turns;
mod whole;
mod windows;

pub use code::{CodeList, Entry, shape_among};
pub use op::Op;
pub use operands::{Operand, Operands, above, name_of, number_of, operands_of};
pub use shape::Shape;
pub use whole::listing;
