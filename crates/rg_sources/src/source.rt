//! The program of a source (docs/promises.md, "The headline").

ghost use Rattle.std.specs.Prelude.{◌≡◌, ◌≤◌, ◌⊎◌, ◌++◌, ◌∷◌, [], length, Err, IfOk};
ghost use Rattle.rg_base.specs.declared.fault.Fault.{Fault};
ghost use Rattle.rg_base.specs.declared.limits.TheConstants.{SOURCE_BYTES};
ghost use Rattle.rg_base.specs.Tokens.{cut};
ghost use Rattle.rg_tree.specs.Rows.RowTrees.{program_of};
ghost use Rattle.rg_io.specs.Content.{Rose};
ghost use Rattle.rg_io.specs.Files.{SameFiles};
ghost use Rattle.rg_rules.specs.Names.{FewNames};
ghost use Rattle.rg_words.specs.Commands.{in_file};
ghost use Rattle.rg_sources.specs.Sources.{IsStuck, SpellsTree};
ghost use Rattle.rg_sources.specs.Brings.{Brings, BringsProgram};

use rg_base::{SOURCE_BYTES, Stop};
use rg_check::{Accepted, check, spelt_has_few_names};
use rg_io::{Files, Taken, take_all};
use rg_lex::tokens;
use rg_parse::parse;
use rg_tree::Program;
use rg_words::Status;
use std::alloc::Global;

/// The program that a source spells.
fn read(alloc: Global, source: &[u8]) -> Result<Program, Stop>
    requires { length source.now ≤ SOURCE_BYTES }
    ensures ok { IfOk result (λ p. SpellsTree source.now (program_of p)) }
    ensures names { IfOk result (λ p. FewNames (program_of p)) }
    ensures fault { (f : Fault) → result ≡ Err (Stop.Fault f) →
        (cut source.now ≡ Err f) ⊎ IsStuck source.now f }
{
    spelt_has_few_names();
    let found = match tokens(alloc, source) {
        Ok(found) => found,
        Err(stop) => return Err(stop),
    };
    parse(alloc, source, &found)
}

/// The program of a file, or the status of the call without one.
pub(crate) fn program_in<F: Files>(
    alloc: Global,
    name: &str,
    files: &mut F,
) -> Result<Program, Status>
    ensures brings { Brings (F.told files.old) (in_file name.now) result }
    ensures source_fault { result ≡ Err Status.SourceFault →
        Rose (F.faults files.old) (F.faults files.new) }
    ensures same_files { SameFiles (F.told files.old) (F.told files.new) }
    ensures begun { F.begun files.new ≡ F.begun files.old ++ name.now ∷ [] }
    ensures never_fall { F.faults files.old ≤ F.faults files.new }
{
    let source = match take_all(alloc, files, name, SOURCE_BYTES) {
        Err(Taken::SourceFault) => return Err(Status::SourceFault),
        Err(Taken::Long) => return Err(Status::Long),
        Err(Taken::Memory) => return Err(Status::Memory),
        Ok(source) => source,
    };
    match read(alloc, source.bytes()) {
        Err(Stop::Fault(fault)) => Err(Status::Refused(fault)),
        Err(Stop::Memory) => Err(Status::Memory),
        Ok(program) => Ok(program),
    }
}

/// The program of a file, if it is accepted, or the status of the call without one.
pub(crate) fn accepted_in<F: Files>(
    alloc: Global,
    name: &str,
    files: &mut F,
) -> Result<Accepted, Status>
    ensures brings { BringsProgram (F.told files.old) name.now result }
    ensures source_fault { result ≡ Err Status.SourceFault →
        Rose (F.faults files.old) (F.faults files.new) }
    ensures same_files { SameFiles (F.told files.old) (F.told files.new) }
    ensures begun { F.begun files.new ≡ F.begun files.old ++ name.now ∷ [] }
    ensures never_fall { F.faults files.old ≤ F.faults files.new }
{
    let program = match program_in(alloc, name, files) {
        Err(status) => return Err(status),
        Ok(program) => program,
    };
    match check(alloc, program) {
        Err(Stop::Fault(fault)) => Err(Status::Refused(fault)),
        Err(Stop::Memory) => Err(Status::Memory),
        Ok(accepted) => Ok(accepted),
    }
}
