//! `bulk N`: runs a generated program without an input, and tells the numbers of the machine.

ghost use Rattle.std.specs.Prelude.{◌≡◌, ℕ, List};
ghost use Rattle.rg_base.specs.Report as report;
ghost use Rattle.rg_tree.specs.Rows.RowTrees.{program_of};
ghost use Rattle.rg_run.specs.Machine.{IsFresh, numbers_of};
ghost use Rattle.rg_rules.specs.Acceptance.{Accepted as IsAccepted};
ghost use Rattle.rg_rules.specs.Names.{FewNames};
ghost use Rattle.rg_words.specs.Commands.{bulk, generated};
ghost use Rattle.rg_words.specs.Answers.{PutLine, CausedByOutput};
ghost use Rattle.rg_sources.specs.Sources.{Sources, spelt, MeansFrom, Runs};
ghost use Rattle.rg_commands.specs.Setting.{IsLent, SlidesOn, DoesIn, CausedIn};
ghost use Rattle.rg_commands.specs.Tallies.{TunedTo, SayYesOf};

use crate::setting::{NoInput, Setting};
use rg_base::{MOST_STEPS, Stop};
use rg_check::{Accepted, check};
use rg_io::{Sink, put_all};
use rg_pace::Pacer;
use rg_report::bulk_line;
use rg_run::Machine;
use rg_tree::Program;
use rg_words::{RunOptions, Status};
use std::alloc::Global;

/// Gives the line of `bulk` to the output.
fn put_bulk_line<O: Sink>(alloc: Global, size: u32, out: &mut O, machine: &Machine) -> Status
    ensures put { PutLine result (report.bulk_line size (numbers_of machine.now))
        (O.taken out.old) (O.taken out.new) }
    ensures caused { CausedByOutput result (O.faults out.old) (O.faults out.new) }
{
    let numbers = machine.numbers();
    match bulk_line(alloc, u64::from(size), &numbers) {
        Err(_) => Status::Memory,
        Ok(line) => match put_all(out, line.bytes()) {
            Ok(()) => Status::Done,
            Err(_) => Status::OutputFault,
        },
    }
}

impl<O: Sink, R: Sink> Setting<'_, O, R> {
    /// Runs a generated program without an input, and tells the machine's numbers behind it.
    fn bulk_accepted(
        &mut self,
        accepted: &Accepted,
        size: u32,
        count: &mut dyn Pacer,
        trace: &mut dyn Pacer,
    ) -> Status
        requires { IsFresh self.old.machine.now }
        ensures settles { (source : Sources) (bytes : List ℕ) →
            Runs (generated size) source (program_of accepted.now.program) →
            DoesIn O.taken (bulk size) source bytes result self.old self.new (Unit {0})
            (tally count.old) (tally count.new) (tally trace.old) (tally trace.new) }
        ensures notes { R.taken self.new.notes.now ≡ R.taken self.old.notes.now }
        ensures tuned { TunedTo 0 (tally count.new) (tally trace.new) }
        ensures yeses { SayYesOf self.new.machine.now
            (tally count.old) (tally count.new) (tally trace.old) (tally trace.new) }
        ensures caused { CausedIn O.faults R.faults result 0 0 self.old self.new }
        ensures kept { IsLent self.old self.new × SlidesOn self.old self.new }
    {
        let mut input = NoInput;
        let options = RunOptions {
            slides: false,
            steps: MOST_STEPS,
            every: 0,
            report: false,
        };
        let ran = self.run_accepted(accepted, options, &mut input, count, trace);
        if let Status::Done = ran {
            return put_bulk_line(self.alloc, size, self.out, self.machine);
        }
        ran
    }

    /// Runs a generated program: it is accepted.
    pub(crate) fn bulk_program(
        &mut self,
        program: Program,
        size: u32,
        count: &mut dyn Pacer,
        trace: &mut dyn Pacer,
    ) -> Status
        requires fresh { IsFresh self.old.machine.now }
        requires names { FewNames (program_of program) }
        requires accepted { IsAccepted (program_of program) }
        ensures settles { (source : Sources) (bytes : List ℕ) →
            MeansFrom (generated size) source (spelt (program_of program)) →
            DoesIn O.taken (bulk size) source bytes result self.old self.new (Unit {0})
            (tally count.old) (tally count.new) (tally trace.old) (tally trace.new) }
        ensures notes { R.taken self.new.notes.now ≡ R.taken self.old.notes.now }
        ensures tuned { ¬ IsFresh self.new.machine.now →
            TunedTo 0 (tally count.new) (tally trace.new) }
        ensures yeses { SayYesOf self.new.machine.now
            (tally count.old) (tally count.new) (tally trace.old) (tally trace.new) }
        ensures caused { CausedIn O.faults R.faults result 0 0 self.old self.new }
        ensures kept { IsLent self.old self.new × SlidesOn self.old self.new }
    {
        match check(self.alloc, program) {
            Err(Stop::Fault(_)) => unreachable!(),
            Err(Stop::Memory) => Status::Memory,
            Ok(accepted) => self.bulk_accepted(&accepted, size, count, trace),
        }
    }
}
