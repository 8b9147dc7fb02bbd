//! The parts of a module as bytes (docs/architecture.md, "Modules"): managers, classes (`Shape`),
//! heads of methods (`Head`), and instructions with their maps. `write_manager`, `write_shapes`,
//! `write_heads` and `write_row` append exactly the bytes of `specs/Spelling`, or no memory was
//! found; they want parts that have a spelling (`FitsShape`, `FitsHead`, `FitsRow`).
//! `take_manager`, `take_shapes`, `take_heads` and `take_row` read a part from the front of bytes,
//! by the definitions of `specs/Reading`, and answer it with the bytes behind it. Where no such
//! part stands there, and only there, they answer `None` or `NotSpelt`. The law
//! `parts_are_read_back` joins the two: what is read was spelled, and what is spelled is read.
#![tactic(auto)]

mod laws;
mod makings;
mod numbers;
mod ops;
mod reading;
mod refusal;
mod rows;
mod tys;
mod writing;

pub use laws::parts_are_read_back;
pub use numbers::bool_number;
pub use ops::take_row;
pub use reading::{
    take_bool, take_byte, take_heads, take_i64, take_manager, take_shapes, take_u32, take_u64,
};
pub use refusal::Refusal;
pub use rows::{Head, Shape};
pub use tys::Tys;
pub use writing::{
    write_heads, write_i64, write_manager, write_row, write_shapes, write_u32, write_u64,
};
