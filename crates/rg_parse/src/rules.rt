//! The rules of the grammar above expressions, each read by a function over the reader
//! (docs/language.md, "Grammar").

pub(crate) mod blocks;
pub(crate) mod classes;
pub(crate) mod program;
pub(crate) mod rights;
pub(crate) mod statements;
