//! Types, paths and expressions, each read by a method of the reader (docs/language.md, "Grammar").

mod expressions;
mod paths;
mod types;
