//! The blocks with numbers of a program stand where its code has them (docs/architecture.md,
//! "Modules"), by laws of accepted programs whose names are those of a module. A body fits
//! (`IsBlockFit` of `rg_verify_expressions`) wherever the maps of its marks stand, with methods that
//! are those of the program (`accepted_are_fit`); `callees` of `specs/Callees` are such methods
//! (`callees_are_methods`). In the code and the maps of the program's module main's block stands
//! at 0 (`BlockStand` of `rg_verify_expressions`), and that of each method where its entry says that
//! the method begins (`modules_fit`). A law of all accepted programs is that their marks stand at
//! the addresses that statements and ends of blocks have (`specs/Places`), each with the map of the
//! environment there (`marks_stand`).
#![tactic(auto)]

mod laws;

pub use laws::{accepted_are_fit, callees_are_methods, marks_stand, modules_fit};
