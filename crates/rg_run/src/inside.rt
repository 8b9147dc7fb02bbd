//! What a machine holds, and the loop of its steps (docs/language.md, "Steps").

ghost use Rattle.std.specs.Prelude.{◌≡◌};
ghost use Rattle.rg_tree.specs.Rows.RowTrees.{program_of};
ghost use Rattle.rg_code.specs.Lowering.{Lowers};
ghost use Rattle.rg_input.specs.Numbers.{Follows, OnInput};
ghost use Rattle.rg_step.specs.Pacers.{both};
ghost use Rattle.rg_run.specs.Inner.{CausedIn, Leaves, WholeRunOf, kept_of};
ghost use Rattle.rg_run.specs.Machine.{IsFresh};

use crate::giving::{counted, give};
use crate::stepping::step;
use crate::task::{Sinks, Task};
use rg_base::Ended;
use rg_input::Numbers;
use rg_io::{Sink, Source};
use rg_pace::Pacer;
use rg_step::Stepper;

/// Whether a run has begun, the stack machine, and the whole steps that it made.
#[derive(Drop)]
pub(crate) struct Inside {
    pub(crate) begun: bool,
    pub(crate) stepper: Stepper,
    pub(crate) steps: u64,
}

impl Inside {
    /// Makes the steps that a run is asked for.
    pub(crate) fn run<I: Source, O: Sink, R: Sink>(
        &mut self,
        task: &Task<'_>,
        input: &mut Numbers,
        source: &mut I,
        sinks: &mut Sinks<'_, O, R>,
        count: &mut dyn Pacer,
        trace: &mut dyn Pacer,
    ) -> Ended
        requires fresh { IsFresh (kept_of self.old) }
        requires lowers { Lowers (program_of task.now.accepted.now.program) task.now.code.now }
        requires follows { Follows input.old (I.left source.old) }
        ensures run { OnInput input.old input.new (I.left source.old) (I.left source.new)
            (WholeRunOf task.now O.taken sinks.old sinks.new (kept_of self.new) result
            ((input.new ≡ input.old) × (source.new ≡ source.old))
            (both (tally count.old) (tally trace.old)) (both (tally count.new) (tally trace.new))) }
        ensures leaves { Leaves R.taken task.now result self.old self.new sinks.old sinks.new
            (both (tally count.old) (tally trace.old)) (both (tally count.new) (tally trace.new)) }
        ensures follows { Follows input.new (I.left source.new) }
        ensures caused { CausedIn O.faults R.faults result
            (I.faults source.old) (I.faults source.new) sinks.old sinks.new }
    {
        let manager = task.accepted.program().main_manager();
        let Ok(()) = self.stepper.begin(task.alloc, task.code, manager) else {
            return Ended::Memory;
        };
        self.begun = true;
        let n = task.most();
        while self.steps < n {
            let told = self.stepper.events().len();
            let outcome = step(&mut self.stepper, task.code, input, source, count, trace);
            self.steps = counted(self.steps, outcome);
            match give(task, sinks, self.stepper.events(), told, outcome) {
                Ok(()) => (),
                Err(ended) => return ended,
            }
            self.steps += self.stepper.leap(task.code, n - self.steps);
        }
        Ended::Spent
    }
}
