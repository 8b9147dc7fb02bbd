//! The classes of a program that is raised from a module, and its methods as calls need them
//! (docs/architecture.md, "Modules"). `find_callees` tests the tables of classes and methods and
//! numbers the methods (`specs/Order`); `add_classes` adds the classes that the tables are of, with
//! the names that raised programs have (`specs/Written`), to a program that has the bodies of their
//! methods. All else is private.
#![tactic(auto)]

mod body_row;
mod callees;
mod classes;
mod members;

pub use body_row::BodyRow;
pub use callees::find_callees;
pub use classes::{Methods, add_classes};
