//! The input of behaviours, which is empty (docs/architecture.md, "Worlds").

ghost use Rattle.std.specs.Prelude.{◌≡◌, ◌≢◌, ℕ, [], false};
ghost use Rattle.rg_tree.specs.Tree.{Tree};
ghost use Rattle.rg_rules.specs.Runs.{Ran};
ghost use Rattle.rg_sched_atomic.specs.Events.{one_more};
ghost use Rattle.rg_first.specs.First.{IsFirst};
ghost use Rattle.rg_step.specs.Pacers.{SameTuned, both};
ghost use Rattle.rg_world.specs.Asking.{AskedMore, step_asks};
ghost use Rattle.rg_world.specs.Standing.{RunsAs};
ghost use Rattle.rg_world.specs.Inner.Steps.{Tells};

use rg_base::Outcome;
use rg_code::CodeList;
use rg_input::Numbers;
use rg_io::{Failed, Source};
use rg_lasting::first_lasts;
use rg_pace::Pacer;
use rg_step::Stepper;
use std::marker::Model;

/// A source that has no byte, and never fails.
#[derive(Clone, Copy)]
struct NoBytes;

impl Source for NoBytes {
    ghost use Rattle.std.specs.Prelude.{◌≡◌, Some, []};
    ghost use Rattle.rg_io.specs.Content.{gave};

    ghost faults = { λ _. 0 };

    ghost left = { λ _. Some [] };

    ghost replies = { λ _ reply _. reply ≡ gave [] };

    fn read(&mut self, _buf: &mut [u8]) -> Result<usize, Failed> {
        Ok(0)
    }
}

/// The input of behaviours. One serves all of them, since no step leaves anything in it.
#[derive(Drop)]
pub(crate) struct EmptyInput {
    numbers: Numbers,
}

impl Model for EmptyInput {
    ghost use Rattle.std.specs.Prelude.{◌≡◌, []};
    ghost use Rattle.rg_input.specs.Numbers.{Pending};

    ghost Value = { Pending };

    ghost view = { λ e. e.numbers };

    ghost invariant = { λ e. e.numbers.held ≡ [] };
}

impl EmptyInput {
    /// Nothing was asked of it.
    pub(crate) fn new() -> EmptyInput
        ensures { result ≡ record { held = []; ended = false } }
    {
        EmptyInput {
            numbers: Numbers::new(),
        }
    }

    /// Makes a step of the machine of a behaviour.
    pub(crate) fn step(
        &mut self,
        stepper: &mut Stepper,
        code: &CodeList,
        count: &mut dyn Pacer,
        trace: &mut dyn Pacer,
    ) -> Outcome
        requires { (t : Tree) × (r : Ran) × RunsAs t code.now r stepper.old }
        ensures tells { (t : Tree) (r : Ran) (class : ℕ) → RunsAs t code.now r stepper.old →
            IsFirst t.classes class r.state →
            Tells t code.now r.state.output (one_more t.classes r) stepper.new result }
        ensures asks { (t : Tree) (r : Ran) → RunsAs t code.now r stepper.old →
            result ≢ Outcome.Memory → AskedMore (step_asks t.classes r.state)
            (both (tally count.old) (tally trace.old)) (both (tally count.new) (tally trace.new)) }
        ensures tuned { SameTuned (both (tally count.old) (tally trace.old))
            (both (tally count.new) (tally trace.new)) }
    {
        first_lasts();
        let mut source = NoBytes;
        stepper.step(code, &mut self.numbers, &mut source, count, trace)
    }
}
