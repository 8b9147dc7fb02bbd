//! The program that a module is of, raised from the module's code (docs/architecture.md,
//! "Modules"). `raise_expressions` adds to a program what its code begins with at an address, up to
//! the first instruction that no expression has: expressions, objects and places in arrays; or it
//! says that none have that code (`RaisesAll` in `specs/Raises`). The laws: instructions begin with
//! the code of at most one list of these (`expressions_stand_once`), and with names that are found
//! raised expressions have the code that `rg_code/specs/Lowering` gives them
//! (`raised_have_their_code`);
//! so have blocks of statements (`blocks_have_their_code` in `specs/Found`, with the code of
//! `specs/Statements`). How blocks are raised is a definition (`block_told` in `specs/Blocks`);
//! what it tells has the code that stands there (`raised_blocks_stand`), and it tells each block
//! that stands there (`standing_blocks_are_told`, with `BlockStand` of `specs/Standing`): at most
//! one (`blocks_stand_once`), or none (`blocks_are_told`). Blocks are raised by the crates above,
//! rg_raise and rg_blocks; no call tests maps and heads yet. All else is private.
#![tactic(auto)]

mod body;
mod callee;
mod expressions;
mod front;
mod held;
mod laws;
mod part;
mod refusal;
mod rows;
mod signs;
mod stack;

pub use body::Body;
pub use callee::Callee;
pub use expressions::raise_expressions;
pub use front::FrontRow;
pub use laws::{
    blocks_are_told, blocks_have_their_code, blocks_stand_once, expressions_stand_once,
    raised_blocks_stand, raised_have_their_code, standing_blocks_are_told,
};
pub use part::{Junction, Part, part_of};
pub use refusal::Refusal;
pub use rows::{add_name, path_row};
pub use signs::{Behind, Close, Leave, Making, Open, Target, Walk};
