//! Tokens (docs/language.md, "Tokens").

use crate::words::{Keyword, Sign};

/// What a token is.
#[derive(Clone, Copy, Debug, PartialEq, Eq)]
pub enum Kind {
    /// `x`, which is no reserved word
    Name,
    /// `7`
    Number(i64),
    /// `class`
    Word(Keyword),
    /// `<=`
    Mark(Sign),
}

/// A token, its place in the source (its text is that slice), and its line.
#[derive(Clone, Copy, Debug, PartialEq, Eq)]
pub struct Token {
    pub kind: Kind,
    pub from: usize,
    pub to: usize,
    pub line: u64,
}
