//! `pack FILE`: writes the module of a program.

ghost use Rattle.std.specs.Prelude.{ℕ, List, Option};
ghost use Rattle.rg_tree.specs.Rows.RowTrees.{program_of};
ghost use Rattle.rg_run.specs.Machine.{IsFresh, Kept};
ghost use Rattle.rg_rules.specs.Names.{FewNames};
ghost use Rattle.rg_words.specs.Commands.{pack, in_file};
ghost use Rattle.rg_words.specs.Answers.{CausedByOutput};
ghost use Rattle.rg_sources.specs.Sources.{Sources, spelt, Means, Runs};
ghost use Rattle.rg_commands.specs.Settled.{Settles};

use rg_base::Stop;
use rg_build::packed;
use rg_check::{Accepted, check};
use rg_io::{Sink, put_all};
use rg_lower::lower;
use rg_tree::Program;
use rg_words::Status;
use std::alloc::Global;

/// Gives the bytes of an accepted program's module to the output.
fn pack_accepted<O: Sink>(alloc: Global, accepted: &Accepted, out: &mut O) -> Status
    ensures settles { (file : List ℕ) (source : Sources) (left : Option (List ℕ)) (m : Kept) →
        Runs (in_file file) source (program_of accepted.now.program) → IsFresh m →
        Settles (pack file) source left result
        (O.taken out.old) (O.taken out.new) m (Unit {0}) }
    ensures caused { CausedByOutput result (O.faults out.old) (O.faults out.new) }
{
    let Ok(code) = lower(alloc, accepted) else {
        return Status::Memory;
    };
    match packed(alloc, accepted, &code) {
        Err(_) => Status::Memory,
        Ok(bytes) => match put_all(out, bytes.bytes()) {
            Ok(()) => Status::Done,
            Err(_) => Status::OutputFault,
        },
    }
}

/// Gives the bytes of a program's module to the output, if it is accepted.
pub(crate) fn pack_program<O: Sink>(alloc: Global, program: Program, out: &mut O) -> Status
    requires { FewNames (program_of program) }
    ensures settles { (file : List ℕ) (source : Sources) (left : Option (List ℕ)) (m : Kept) →
        Means source.file (spelt (program_of program)) → IsFresh m →
        Settles (pack file) source left result
        (O.taken out.old) (O.taken out.new) m (Unit {0}) }
    ensures caused { CausedByOutput result (O.faults out.old) (O.faults out.new) }
{
    match check(alloc, program) {
        Err(Stop::Fault(fault)) => Status::Refused(fault),
        Err(Stop::Memory) => Status::Memory,
        Ok(accepted) => pack_accepted(alloc, &accepted, out),
    }
}
