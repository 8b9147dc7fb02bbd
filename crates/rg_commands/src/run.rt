//! `run FILE` and `slide FILE`, with their options: run a program on the machine.

ghost use Rattle.std.specs.Prelude.{◌≡◌, ℕ, List, false};
ghost use Rattle.rg_tree.specs.Rows.RowTrees.{program_of};
ghost use Rattle.rg_code.specs.Lowering.{Lowers};
ghost use Rattle.rg_run.specs.Machine.{IsFresh};
ghost use Rattle.rg_rules.specs.Names.{FewNames};
ghost use Rattle.rg_words.specs.Answers.{ForInput};
ghost use Rattle.rg_words.specs.Commands.{run, Origin};
ghost use Rattle.rg_sources.specs.Sources.{Sources, spelt, Means, Runs};
ghost use Rattle.rg_commands.specs.Setting.{IsUnused, IsLent, SlidesOn, SlidesTo, RanIn, DoesIn};
ghost use Rattle.rg_commands.specs.Setting.{ReportedIn, CausedIn, PacedIn};
ghost use Rattle.rg_commands.specs.Tallies.{TunedTo, RunAskedBy, RunAskedOf, SayYesOf};

use crate::ended::status_of;
use crate::setting::Setting;
use rg_base::Stop;
use rg_check::{Accepted, check};
use rg_code::CodeList;
use rg_input::Numbers;
use rg_io::{Sink, Source};
use rg_lower::lower;
use rg_pace::Pacer;
use rg_run::Machine;
use rg_tree::Program;
use rg_words::{RunOptions, Status};

/// An accepted program with its code.
#[derive(Drop)]
struct Lowered<'a> {
    accepted: &'a Accepted,
    code: CodeList,
}

/// Chooses whether what a collection of a traced region keeps moves.
fn choose(slides: bool, machine: &mut Machine)
    requires fresh { IsFresh machine.old }
    requires stays { machine.old.stepper.slides ≡ false }
    ensures fresh { IsFresh machine.new }
    ensures slides { machine.new.stepper.slides ≡ slides }
{
    if slides {
        machine.slide();
    }
}

impl<O: Sink, R: Sink> Setting<'_, O, R> {
    /// Runs code on the machine. With a report, the lines of collections are given to the notes.
    fn run_code<I: Source>(
        &mut self,
        lowered: &Lowered<'_>,
        options: RunOptions,
        input: &mut I,
        count: &mut dyn Pacer,
        trace: &mut dyn Pacer,
    ) -> Status
        requires fresh { IsFresh self.old.machine.now }
        requires lowers { Lowers (program_of lowered.now.accepted.now.program) lowered.now.code }
        ensures ran { (origin : Origin) (source : Sources) →
            Runs origin source (program_of lowered.now.accepted.now.program) →
            ForInput (I.left input.old) (λ bytes.
            RanIn O.taken origin options.steps source bytes result
            self.old self.new (input.new ≡ input.old)
            × RunAskedBy origin source bytes result self.new.machine.now
            (tally count.old) (tally count.new) (tally trace.old) (tally trace.new)) }
        ensures notes { ReportedIn R.taken options.report result self.old self.new }
        ensures paced { PacedIn self.new
            (tally count.old) (tally count.new) (tally trace.old) (tally trace.new) }
        ensures caused { CausedIn O.faults R.faults result (I.faults input.old) (I.faults input.new)
            self.old self.new }
        ensures kept { IsLent self.old self.new × SlidesOn self.old self.new }
    {
        let ran = self.machine.run(
            self.alloc,
            lowered.accepted,
            &lowered.code,
            options.steps,
            options.report,
            &mut Numbers::new(),
            input,
            self.out,
            self.notes,
            count,
            trace,
        );
        status_of(ran)
    }

    /// Tunes both pacers, lowers an accepted program and runs its code.
    pub(crate) fn run_accepted<I: Source>(
        &mut self,
        accepted: &Accepted,
        options: RunOptions,
        input: &mut I,
        count: &mut dyn Pacer,
        trace: &mut dyn Pacer,
    ) -> Status
        requires { IsFresh self.old.machine.now }
        ensures ran { (origin : Origin) (source : Sources) →
            Runs origin source (program_of accepted.now.program) →
            ForInput (I.left input.old) (λ bytes.
            RanIn O.taken origin options.steps source bytes result
            self.old self.new (input.new ≡ input.old)
            × RunAskedOf origin options.every source bytes result self.new.machine.now
            (tally count.old) (tally count.new) (tally trace.old) (tally trace.new)) }
        ensures notes { ReportedIn R.taken options.report result self.old self.new }
        ensures tuned { TunedTo options.every (tally count.new) (tally trace.new) }
        ensures yeses { SayYesOf self.new.machine.now
            (tally count.old) (tally count.new) (tally trace.old) (tally trace.new) }
        ensures caused { CausedIn O.faults R.faults result (I.faults input.old) (I.faults input.new)
            self.old self.new }
        ensures kept { IsLent self.old self.new × SlidesOn self.old self.new }
    {
        count.tune(options.every);
        trace.tune(options.every);
        let Ok(code) = lower(self.alloc, accepted) else {
            return Status::Memory;
        };
        let lowered = Lowered { accepted, code };
        self.run_code(&lowered, options, input, count, trace)
    }

    /// Checks a program, and runs it on the machine.
    pub(crate) fn run_program<I: Source>(
        &mut self,
        program: Program,
        options: RunOptions,
        input: &mut I,
        count: &mut dyn Pacer,
        trace: &mut dyn Pacer,
    ) -> Status
        requires unused { IsUnused self.old }
        requires names { FewNames (program_of program) }
        ensures settles { (file : List ℕ) (source : Sources) →
            Means source.file (spelt (program_of program)) →
            ForInput (I.left input.old) (λ bytes. DoesIn O.taken
            (run options.slides file options.steps options.every options.report)
            source bytes result self.old self.new (input.new ≡ input.old)
            (tally count.old) (tally count.new) (tally trace.old) (tally trace.new)) }
        ensures notes { ReportedIn R.taken options.report result self.old self.new }
        ensures tuned { ¬ IsFresh self.new.machine.now →
            TunedTo options.every (tally count.new) (tally trace.new) }
        ensures yeses { SayYesOf self.new.machine.now
            (tally count.old) (tally count.new) (tally trace.old) (tally trace.new) }
        ensures caused { CausedIn O.faults R.faults result (I.faults input.old) (I.faults input.new)
            self.old self.new }
        ensures kept { IsLent self.old self.new × SlidesTo options.slides self.new }
    {
        choose(options.slides, self.machine);
        match check(self.alloc, program) {
            Err(Stop::Fault(fault)) => Status::Refused(fault),
            Err(Stop::Memory) => Status::Memory,
            Ok(accepted) => self.run_accepted(&accepted, options, input, count, trace),
        }
    }
}
