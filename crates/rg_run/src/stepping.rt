//! A step of the stack machine, as the loop of a run takes it (docs/language.md, "Steps").

ghost use Rattle.std.specs.Prelude.{◌≡◌, ◌≢◌, ◌≤◌, ◌++◌, List};
ghost use Rattle.rg_io.specs.Content.{Rose};
ghost use Rattle.rg_input.specs.Numbers.{Follows, OnInput};
ghost use Rattle.rg_machine.specs.Parts.{machine_in};
ghost use Rattle.rg_step.specs.Asking.{YesesTold};
ghost use Rattle.rg_step.specs.Pacers.{SameTuned, both};
ghost use Rattle.rg_step.specs.States.{OneStep, standing};
ghost use Rattle.rg_step.specs.Steps.{AsksFirst, IsRunning, UnlessAsking};
ghost use Rattle.rg_run.specs.Inner.{Adds};

use rg_base::{Event, Outcome};
use rg_code::CodeList;
use rg_input::Numbers;
use rg_io::Source;
use rg_pace::Pacer;
use rg_step::Stepper;

/// Makes one step. It has at most one collection, and tunes no pacer.
pub(crate) fn step<S: Source>(
    stepper: &mut Stepper,
    code: &CodeList,
    input: &mut Numbers,
    source: &mut S,
    count: &mut dyn Pacer,
    trace: &mut dyn Pacer,
) -> Outcome
    requires runs { IsRunning code.now (machine_in stepper.old.parts) }
    requires follows { Follows input.old (S.left source.old) }
    ensures one { OnInput input.old input.new (S.left source.old) (S.left source.new)
        (OneStep code.now (standing stepper.old (tally count.old) (tally trace.old))
        (standing stepper.new (tally count.new) (tally trace.new)) result) }
    ensures events { Adds stepper.new.steps stepper.old.events stepper.new.events result }
    ensures slides { stepper.new.slides ≡ stepper.old.slides }
    ensures tuned { SameTuned
        (both (tally count.old) (tally trace.old)) (both (tally count.new) (tally trace.new)) }
    ensures yeses { (behind : List Event) × (stepper.new.events ≡ stepper.old.events ++ behind)
        × YesesTold behind
        (both (tally count.old) (tally trace.old)) (both (tally count.new) (tally trace.new)) }
    ensures reads_nothing { UnlessAsking code.now (machine_in stepper.old.parts)
        ((input.new ≡ input.old) × (source.new ≡ source.old)) }
    ensures input_fault { result ≡ Outcome.InputFault →
        AsksFirst code.now (machine_in stepper.old.parts) }
    ensures follows { Follows input.new (S.left source.new) }
    ensures fault { result ≡ Outcome.InputFault →
        Rose (S.faults source.old) (S.faults source.new) }
    ensures no_fault { result ≢ Outcome.InputFault → S.faults source.new ≡ S.faults source.old }
    ensures never_falls { S.faults source.old ≤ S.faults source.new }
{
    stepper.step(code, input, source, count, trace)
}
