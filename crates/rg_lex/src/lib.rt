//! The lexer: it cuts a source into tokens (docs/language.md, "Tokens"). `tokens` answers `Tokens`,
//! read by `len`, `get`, `as_slice` and `end_line`, or the source's first fault (`cut`); the tokens
//! stand in order, within the source, on its lines (`spans`, `lines`). Only want of memory is left
//! free.
#![tactic(auto)]

mod cut;
mod keyword;
mod number;
mod piece;
mod runs;
mod signs;
mod token_list;

pub use cut::tokens;
pub use rg_base::{Keyword, Kind, Sign, Token};
pub use token_list::Tokens;
