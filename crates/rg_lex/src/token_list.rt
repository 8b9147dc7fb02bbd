//! The tokens of a source, as a list that can be read (docs/language.md, "Tokens").

ghost use Rattle.std.specs.Prelude.{◌≡◌, ◌<◌, length, Some, slice_get};

use rg_base::Token;
use std::marker::Model;

/// The tokens of a source and the line of its end; contracts see the two.
#[derive(Debug, Drop)]
pub struct Tokens {
    found: Vec<Token>,
    last: u64,
}

impl Model for Tokens {
    ghost use Rattle.rg_lex.specs.TokenList.{TokenList};

    ghost Value = { TokenList };

    ghost view = { λ t. record { tokens = t.found.items; end_line = t.last } };
}

impl Tokens {
    /// The tokens that were found, and the line of the end.
    pub(crate) fn of(found: Vec<Token>, last: u64) -> Tokens
        ensures { result ≡ record { tokens = found.items; end_line = last } }
    {
        Tokens { found, last }
    }

    /// How many tokens there are.
    pub fn len(&self) -> usize
        ensures { result ≡ length self.now.tokens }
    {
        self.found.len()
    }

    /// The token at an index.
    pub fn get(&self, i: usize) -> Token
        requires { i < length self.now.tokens }
        ensures { slice_get self.now.tokens i ≡ Some result }
    {
        self.found[i]
    }

    /// All tokens, in the order of the source.
    pub fn as_slice(&self) -> &[Token]
        ensures { result.now ≡ self.now.tokens }
    {
        self.found.as_slice()
    }

    /// The line of the end of the source.
    pub fn end_line(&self) -> u64
        ensures { result ≡ self.now.end_line }
    {
        self.last
    }
}
