//! The program of a file (docs/embedding.md, "Step by step").

ghost use Rattle.std.specs.Prelude.{◌≤◌, IfOk, length};
ghost use Rattle.rg_base.specs.declared.limits.TheConstants.{SOURCE_BYTES};
ghost use Rattle.rg_tree.specs.Rows.RowTrees.{program_of};
ghost use Rattle.rg_rules.specs.Names.{FewNames};

use rg_base::{SOURCE_BYTES, Stop};
use rg_check::{Accepted, check, spelt_has_few_names};
use rg_io::{StdFiles, take_all};
use rg_lex::tokens;
use rg_parse::parse;
use rg_tree::Program;
use std::alloc::Global;
use std::rt::Files;

/// The program that a source spells.
fn spelt(alloc: Global, source: &[u8]) -> Result<Program, Stop>
    requires { length source.now ≤ SOURCE_BYTES }
    ensures names { IfOk result (λ p. FewNames (program_of p)) }
{
    spelt_has_few_names();
    let found = match tokens(alloc, source) {
        Ok(found) => found,
        Err(stop) => return Err(stop),
    };
    parse(alloc, source, &found)
}

/// The accepted program of these bytes, or why there is none.
pub fn accepted_of(alloc: Global, source: &[u8]) -> Result<Accepted, Stop>
    requires { length source.now ≤ SOURCE_BYTES }
{
    let program = spelt(alloc, source)?;
    check(alloc, program)
}
