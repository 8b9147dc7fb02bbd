//! What is left to read, and what is built on the way (docs/language.md, "Grammar").

pub(crate) mod builder;
pub(crate) mod halt;
pub(crate) mod kinds;
pub(crate) mod limits;
pub(crate) mod starts;

ghost use Rattle.std.specs.Prelude.{◌≡◌, ◌≢◌, ◌<◌, ◌≤◌, [], ◌∷◌, length, Some, IfOk, IfErr, OnOk};
ghost use Rattle.std.specs.Prelude.{MatchOption, MatchBool};
ghost use Rattle.rg_tree.specs.Table.{next};
ghost use Rattle.rg_tree.specs.Stuck.{line_at};
ghost use Rattle.rg_tree.specs.Phrases.{that, sign, name, finish};
ghost use Rattle.rg_tree.specs.Counts.{at_start};
ghost use Rattle.rg_tree.specs.Rows.Tables.{at_first};
ghost use Rattle.rg_tree.specs.Rows.RowTrees.{classes_of};
ghost use Rattle.rg_reader.specs.Heads.{AreWithin};
ghost use Rattle.rg_reader.specs.Steps.{Halts, Took, Signed, Used, Declared, Reset, IsFirst};
ghost use Rattle.rg_reader.specs.Roles.{symbol_of};

use crate::key::key_of;
use crate::reader::halt::Halt;
use crate::reader::kinds::is_same;
use crate::reader::limits::{Role, behind, counted, one_sign};
use rg_base::{Code, Kind, Sign, Token};
use rg_tree::{Counts, Program};
use std::alloc::Global;
use std::marker::Model;

/// A source that is read: the tokens that are left, what the limits counted so far, and the program
/// that is built. Contracts see the four.
#[derive(Drop)]
pub struct Reader<'a> {
    alloc: Global,
    source: &'a [u8],
    rest: &'a [Token],
    counts: Counts,
    program: Program,
}

impl<'a> Model for Reader<'a> {
    ghost use Rattle.rg_reader.specs.Steps.{State};

    ghost Value = { State };

    ghost use Rattle.rg_reader.specs.Heads.{AreWithin};
    ghost use Rattle.rg_reader.specs.Near.{IsNear};
    ghost use Rattle.std.specs.Prelude.{length};

    ghost view = { λ r. record {
      source = r.source.now;
      rest = r.rest.now;
      counts = r.counts;
      tables = r.program;
    } };

    // each token that is left stands within the source, and one name more of a body can be counted
    ghost invariant = { λ r. AreWithin (length r.source.now) r.rest.now × IsNear r.counts };
}

impl<'a> Reader<'a> {
    /// In front of the first token of a source.
    pub fn new(alloc: Global, source: &'a [u8], tokens: &'a [Token]) -> Reader<'a>
        requires { AreWithin (length source.now) tokens.now }
        ensures start { result ≡ record {
          source = source.now;
          rest = tokens.now;
          counts = at_start;
          tables = at_first;
        } }
        ensures classes { classes_of result.tables ≡ [] }
    {
        Reader {
            alloc,
            source,
            rest: tokens,
            counts: Counts {
                brackets: 0,
                classes: 0,
                fields: 0,
                methods: 0,
                params: 0,
                names: 0,
                signs: 0,
            },
            program: Program::keyed(alloc, key_of(source)),
        }
    }

    /// The program that was built.
    pub fn into_program(self) -> Program
        ensures { result ≡ self.entry.tables }
    {
        self.program
    }

    /// The end of the tokens is expected.
    pub fn finish(&self) -> Result<(), Halt>
        ensures ok { OnOk result (self.now.rest ≡ []) }
        ensures fault { IfErr result (λ e. Halts (finish ∷ []) self.now e self.now) }
    {
        match self.rest {
            [] => Ok(()),
            [_, ..] => Err(Halt::At(Code::Syntax)),
        }
    }

    /// A closing parenthesis is expected; it isn't passed.
    pub fn closes(&self) -> Result<(), Halt>
        ensures ok { OnOk result (next self.now.rest ≡ Some (Kind.Mark Sign.CloseParen)) }
        ensures fault { IfErr result (λ e. (e ≡ Halt.At Code.Syntax)
            × (next self.now.rest ≢ Some (Kind.Mark Sign.CloseParen))) }
    {
        if !self.is_next(Kind::Mark(Sign::CloseParen)) {
            return Err(Halt::At(Code::Syntax));
        }
        Ok(())
    }

    /// The kind of the token that stands next; none at the end.
    pub fn next(&self) -> Option<Kind>
        ensures { result ≡ next self.now.rest }
    {
        match self.rest {
            [token, ..] => Some(token.kind),
            [] => None,
        }
    }

    /// Whether a token of that kind stands next.
    pub fn is_next(&self, kind: Kind) -> bool
        ensures { MatchBool result
            (next self.now.rest ≡ Some kind) (next self.now.rest ≢ Some kind) }
    {
        match self.first(kind) {
            Some(_) => true,
            None => false,
        }
    }

    /// The allocator.
    pub fn alloc(&self) -> Global {
        self.alloc
    }

    /// From here on signs are counted anew.
    pub fn no_signs(&mut self)
        ensures reset { Reset self.old self.new }
        ensures shorter { length self.new.rest ≤ length self.old.rest }
    {
        self.counts.signs = 0;
    }

    /// The line of the token that stands next, or that of the end.
    pub fn line(&self, end: u64) -> u64
        ensures { result ≡ line_at end self.now.rest }
    {
        match self.rest {
            [token, ..] => token.line,
            [] => end,
        }
    }

    /// The token that stands next, where it has that kind, and the tokens behind it.
    fn first(&self, kind: Kind) -> Option<(Token, &'a [Token])>
        ensures { MatchOption result (next self.now.rest ≢ Some kind)
            (λ r. IsFirst kind self.now r.0 r.1.now) }
    {
        match self.rest {
            [token, rest @ ..] => {
                if is_same(token.kind, kind) {
                    Some((*token, rest))
                } else {
                    None
                }
            }
            [] => None,
        }
    }

    /// Passes a token that is expected as itself.
    pub fn take(&mut self, kind: Kind) -> Result<(), Halt>
        ensures ok { OnOk result (Took kind self.old self.new) }
        ensures shorter { OnOk result (length self.new.rest < length self.old.rest) }
        ensures fault { IfErr result (λ e. Halts (that kind ∷ []) self.old e self.new) }
    {
        let Some((_, rest)) = self.first(kind) else {
            return Err(Halt::At(Code::Syntax));
        };
        self.counts = behind(kind, self.counts)?;
        self.rest = rest;
        Ok(())
    }

    /// Passes a sign of two operands.
    pub(crate) fn sign(&mut self, kind: Kind) -> Result<(), Halt>
        ensures ok { OnOk result (Signed kind self.old self.new) }
        ensures shorter { OnOk result (length self.new.rest < length self.old.rest) }
        ensures fault { IfErr result (λ e. Halts (sign kind ∷ []) self.old e self.new) }
    {
        let Some((_, rest)) = self.first(kind) else {
            return Err(Halt::At(Code::Syntax));
        };
        self.counts = one_sign(self.counts)?;
        self.rest = rest;
        Ok(())
    }

    /// Passes a name that is used, and gives its number.
    pub fn name(&mut self) -> Result<u32, Halt>
        ensures ok { IfOk result (λ n. Used self.old n self.new) }
        ensures shorter { OnOk result (length self.new.rest < length self.old.rest) }
        ensures fault { IfErr result (λ e. Halts (name ∷ []) self.old e self.new) }
    {
        let Some((token, rest)) = self.first(Kind::Name) else {
            return Err(Halt::At(Code::Syntax));
        };
        let text = &self.source[token.from..token.to];
        let number = self.program.add_name(text)?;
        self.rest = rest;
        Ok(number)
    }

    /// Passes a name that is declared, and gives its number.
    pub fn declare(&mut self, role: Role) -> Result<u32, Halt>
        ensures ok { IfOk result (λ n. Declared (symbol_of role) self.old n self.new) }
        ensures shorter { OnOk result (length self.new.rest < length self.old.rest) }
        ensures fault { IfErr result (λ e. Halts (symbol_of role ∷ []) self.old e self.new) }
    {
        let Some((token, rest)) = self.first(Kind::Name) else {
            return Err(Halt::At(Code::Syntax));
        };
        let counts = counted(role, self.counts)?;
        let text = &self.source[token.from..token.to];
        let number = self.program.add_name(text)?;
        self.counts = counts;
        self.rest = rest;
        Ok(number)
    }
}
