//! `plain FILE [--steps N]`: runs a program on the machine that never frees.

ghost use Rattle.std.specs.Prelude.{◌≡◌, ℕ, List, Some};
ghost use Rattle.rg_tree.specs.Rows.RowTrees.{program_of};
ghost use Rattle.rg_run.specs.Machine.{IsFresh, Kept};
ghost use Rattle.rg_rules.specs.Names.{FewNames};
ghost use Rattle.rg_words.specs.Commands.{plain, in_file};
ghost use Rattle.rg_words.specs.Answers.{CausedBeside, ForInput};
ghost use Rattle.rg_sources.specs.Sources.{Sources, spelt, Means, Runs};
ghost use Rattle.rg_commands.specs.Settled.{Settles};

use crate::ended::status_of;
use rg_base::Stop;
use rg_check::{Accepted, check};
use rg_input::Numbers;
use rg_io::{Sink, Source};
use rg_plain::PlainMachine;
use rg_tree::Program;
use rg_words::Status;
use std::alloc::Global;

/// Runs an accepted program on a machine of its own for at most so many steps.
fn plain_accepted<I: Source, O: Sink>(
    alloc: Global,
    accepted: &Accepted,
    steps: u64,
    input: &mut I,
    out: &mut O,
) -> Status
    ensures settles { (file : List ℕ) (source : Sources) (m : Kept) →
        Runs (in_file file) source (program_of accepted.now.program) → IsFresh m →
        ForInput (I.left input.old) (λ bytes. Settles (plain file steps) source (Some bytes) result
        (O.taken out.old) (O.taken out.new) m (input.new ≡ input.old)) }
    ensures caused { CausedBeside result (I.faults input.old) (I.faults input.new)
        (O.faults out.old) (O.faults out.new) }
{
    let program = accepted.program();
    let mut machine = PlainMachine::new(alloc);
    let Ok(()) = machine.begin(alloc, program) else {
        return Status::Memory;
    };
    let mut numbers = Numbers::new();
    let counted = machine.run_counting(alloc, program, steps, &mut numbers, input, out);
    status_of(counted.ended)
}

/// Checks a program, and runs it on a machine of its own.
pub(crate) fn plain_program<I: Source, O: Sink>(
    alloc: Global,
    program: Program,
    steps: u64,
    input: &mut I,
    out: &mut O,
) -> Status
    requires { FewNames (program_of program) }
    ensures settles { (file : List ℕ) (source : Sources) (m : Kept) →
        Means source.file (spelt (program_of program)) → IsFresh m →
        ForInput (I.left input.old) (λ bytes. Settles (plain file steps) source (Some bytes) result
        (O.taken out.old) (O.taken out.new) m (input.new ≡ input.old)) }
    ensures caused { CausedBeside result (I.faults input.old) (I.faults input.new)
        (O.faults out.old) (O.faults out.new) }
{
    match check(alloc, program) {
        Err(Stop::Fault(fault)) => Status::Refused(fault),
        Err(Stop::Memory) => Status::Memory,
        Ok(accepted) => plain_accepted(alloc, &accepted, steps, input, out),
    }
}
