//! A source is read: its tree, or its first fault (docs/language.md, "Grammar").

ghost use Rattle.std.specs.Prelude.{◌≡◌, ◌≤◌, length, IfOk, Ok, Err};
ghost use Rattle.rg_base.specs.declared.limits.TheConstants.{SOURCE_BYTES};
ghost use Rattle.rg_base.specs.declared.fault.Fault.{Fault};
ghost use Rattle.rg_base.specs.Tokens.{cut, end_line};
ghost use Rattle.rg_tree.specs.Tree.{Tree};
ghost use Rattle.rg_tree.specs.Rows.RowTrees.{program_of};
ghost use Rattle.rg_tree.specs.Grammar.{Spells};
ghost use Rattle.rg_parse.specs.Answers.{IsStuckWith};

use crate::rules::program::program;
use rg_base::{Fault, Stop};
use rg_lex::Tokens;
use rg_reader::{Halt, Reader};
use rg_tree::Program;
use std::alloc::Global;

/// The program that a source's tokens spell, or the fault where they are stuck: `E10` at a token
/// that the grammar doesn't take there, `E11` and `E12` at one past a limit.
pub fn parse(alloc: Global, bytes: &[u8], tokens: &Tokens) -> Result<Program, Stop>
    requires short { length bytes.now ≤ SOURCE_BYTES }
    requires cut { cut bytes.now ≡ Ok tokens.now.tokens }
    requires end_line { tokens.now.end_line ≡ end_line bytes.now }

    // What is answered is spelt, within the limits.
    ensures ok { IfOk result (λ p. Spells bytes.now (program_of p) tokens.now.tokens) }

    // A fault is that of the place where the tokens are stuck, and then no tree is spelt.
    ensures fault { (f : Fault) → result ≡ Err (Stop.Fault f) → IsStuckWith tokens.now f }
    ensures none { (f : Fault) → result ≡ Err (Stop.Fault f)
        → (r : Tree) → Spells bytes.now r tokens.now.tokens → ⊥ }
{
    let mut reader = Reader::new(alloc, bytes, tokens.as_slice());
    match program(&mut reader) {
        Ok(()) => Ok(reader.into_program()),
        Err(Halt::Memory) => Err(Stop::Memory),
        Err(Halt::At(code)) => {
            let line = reader.line(tokens.end_line());
            Err(Stop::Fault(Fault { code, line }))
        }
    }
}
