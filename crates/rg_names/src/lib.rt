//! The class table: the names of classes and members, checked headers, and the types that are
//! written (docs/language.md, "Headers").
#![tactic(auto)]

mod book;
mod build;
mod by_name;
mod classes;
mod entry;
mod found;
mod headers;
mod laws;
mod suits;

pub use book::Book;
pub use classes::Classes;
pub use entry::{FieldAt, Sig};
pub use laws::{good_headers_pass, tables_are_of_good_headers};
