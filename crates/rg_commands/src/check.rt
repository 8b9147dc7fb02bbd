//! `check FILE`: says of a program that it is accepted.

ghost use Rattle.std.specs.Prelude.{ℕ, List, Option};
ghost use Rattle.rg_tree.specs.Rows.RowTrees.{program_of};
ghost use Rattle.rg_run.specs.Machine.{IsFresh, Kept};
ghost use Rattle.rg_rules.specs.Names.{FewNames};
ghost use Rattle.rg_words.specs.Commands.{check};
ghost use Rattle.rg_words.specs.Answers.{CausedByOutput};
ghost use Rattle.rg_sources.specs.Sources.{Sources, spelt, Means};
ghost use Rattle.rg_commands.specs.Settled.{Settles};

use rg_base::Stop;
use rg_check::check;
use rg_io::{Sink, put_all};
use rg_tree::Program;
use rg_words::Status;
use std::alloc::Global;

/// Says of a program that it is accepted, if it is.
pub(crate) fn check_program<O: Sink>(alloc: Global, program: Program, out: &mut O) -> Status
    requires { FewNames (program_of program) }
    ensures settles { (file : List ℕ) (source : Sources) (left : Option (List ℕ)) (m : Kept) →
        Means source.file (spelt (program_of program)) → IsFresh m →
        Settles (check file) source left result
        (O.taken out.old) (O.taken out.new) m (Unit {0}) }
    ensures caused { CausedByOutput result (O.faults out.old) (O.faults out.new) }
{
    match check(alloc, program) {
        Err(Stop::Fault(fault)) => Status::Refused(fault),
        Err(Stop::Memory) => Status::Memory,
        Ok(_) => match put_all(out, b"accepted\n") {
            Ok(()) => Status::Done,
            Err(_) => Status::OutputFault,
        },
    }
}
