//! `fmt FILE`: writes the canonical text of a program.

ghost use Rattle.std.specs.Prelude.{ℕ, List, Option};
ghost use Rattle.rg_tree.specs.Rows.RowTrees.{program_of};
ghost use Rattle.rg_run.specs.Machine.{IsFresh, Kept};
ghost use Rattle.rg_words.specs.Commands.{fmt};
ghost use Rattle.rg_words.specs.Answers.{CausedByOutput};
ghost use Rattle.rg_sources.specs.Sources.{Sources, spelt, Means};
ghost use Rattle.rg_commands.specs.Settled.{Settles};

use rg_io::{Sink, put_all};
use rg_print::{canon_parses_back, text};
use rg_tree::Program;
use rg_words::Status;
use std::alloc::Global;

/// Gives the canonical text of a program to the output.
pub(crate) fn format_program<O: Sink>(alloc: Global, program: &Program, out: &mut O) -> Status
    ensures settles { (file : List ℕ) (source : Sources) (left : Option (List ℕ)) (m : Kept) →
        Means source.file (spelt (program_of program.now)) → IsFresh m →
        Settles (fmt file) source left result
        (O.taken out.old) (O.taken out.new) m (Unit {0}) }
    ensures caused { CausedByOutput result (O.faults out.old) (O.faults out.new) }
{
    canon_parses_back();
    match text(alloc, program) {
        Err(_) => Status::Memory,
        Ok(canonical) => match put_all(out, canonical.bytes()) {
            Ok(()) => Status::Done,
            Err(_) => Status::OutputFault,
        },
    }
}
