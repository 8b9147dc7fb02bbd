//! The programs that raise a module (docs/architecture.md, "Modules"): which these are is a
//! definition (`Raises` in `specs/Raises`). `raise_module` raises the one program that can be, as
//! the module's tables and code tell it (`program_told` of `specs/Told`), or says that they tell
//! none. Whether it is accepted, and its module the one that it was raised from, is for its caller
//! to test.
#![tactic(auto)]

mod whole;

pub use whole::raise_module;
