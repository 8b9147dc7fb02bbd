//! A step, without what may follow for its `collect` or its `pace` (docs/architecture.md, "The
//! stepper").

ghost use Rattle.std.specs.Prelude.{◌≡◌, ◌≢◌, ◌≤◌, ◌+◌, ◌<◌, ℕ, Some, slice_get, true};
ghost use Rattle.rg_io.specs.Content.{Rose};
ghost use Rattle.rg_input.specs.Numbers.{AsksFor, Follows, OnInput, Pending, is_input_fault};
ghost use Rattle.rg_code.specs.declared.op.Op.TheVariants as i;
ghost use Rattle.rg_code.specs.Dues.{due_at};
ghost use Rattle.rg_code.specs.Shapes.{IsMark};
ghost use Rattle.rg_machine.specs.Parts.{machine_in};
ghost use Rattle.rg_step.specs.Steps.{AsksFirst, IsResting, IsRunning, StepsOn, UnlessAsking};
ghost use Rattle.rg_step.specs.Steps.{is_made};
ghost use Rattle.rg_step.specs.Inner.Serving.{HasPlace, Instructed, answer, is_asked};

use crate::collecting::make_place;
use crate::step::{Did, step};
use crate::stopped::Stopped;
use rg_base::{Cause, Event, Outcome, Val};
use rg_code::{CodeList, Op};
use rg_input::Numbers;
use rg_io::Source;
use rg_machine::Machine;

/// Makes one step, in front of which is told why it may collect, with room for an event that may
/// come. The input is asked at most where the first thing to do asks.
pub(crate) fn outcome<S: Source>(
    p: &mut Machine,
    code: &CodeList,
    due: Option<Cause>,
    events: &mut Vec<Event>,
    input: &mut Numbers,
    source: &mut S,
) -> Outcome
    requires runs { IsRunning code.now (machine_in p.old) }
    requires rests { IsResting p.old }
    requires due { due ≡ due_at code.now.ops p.old.at }
    requires follows { Follows input.old (S.left source.old) }
    ensures step { OnInput input.old input.new (S.left source.old) (S.left source.new)
        (StepsOn code.now (machine_in p.old) (machine_in p.new) result) }
    ensures did { Instructed due p.old p.new result }
    ensures events { events.new.items ≡ events.old.items }
    ensures room { is_made result ≡ true → HasPlace due events.new }
    ensures reads_nothing { UnlessAsking code.now (machine_in p.old)
        ((input.new ≡ input.old) × (source.new ≡ source.old)) }
    ensures asks { (n : Pending) ×
        AsksFor S.replies (is_input_fault result) input.old n source.old source.new }
    ensures input_fault { result ≡ Outcome.InputFault → AsksFirst code.now (machine_in p.old) }
    ensures follows { Follows input.new (S.left source.new) }
    ensures fault { result ≡ Outcome.InputFault →
        Rose (S.faults source.old) (S.faults source.new) }
    ensures no_fault { result ≢ Outcome.InputFault → S.faults source.new ≡ S.faults source.old }
    ensures never_falls { S.faults source.old ≤ S.faults source.new }
{
    let Ok(()) = make_place(due, events) else {
        return Outcome::Memory;
    };
    if is_asked(due) {
        p.go_to(behind_collect(p.at(), code.len()));
        return Outcome::Running;
    }
    p.is_sound();
    let at = p.at();
    let did = step(p, code, input, source);
    let printed = p.printed();
    p.start();
    p.is_sound();
    answer(code, at, did, printed)
}

/// Whether a step may collect since that is what it is for.
fn is_asked(due: Option<Cause>) -> bool
    ensures { result ≡ is_asked due }
{
    match due {
        Some(Cause::Asked) => true,
        Some(Cause::Paced) => false,
        None => false,
    }
}

/// The address behind the step of a `collect`, in code of this length.
fn behind_collect(at: usize, len: usize) -> usize
    requires { at + 2 < len }
    ensures { result ≡ at + 2 }
{
    at + 2
}

/// The line of the step at an address.
fn line_at(code: &CodeList, at: usize) -> u64
    requires { IsMark code.now.ops at }
    ensures { slice_get code.now.ops at ≡ Some (i.Mark result) }
{
    let Op::Mark { line } = code.get(at) else {
        unreachable!();
    };
    line
}

/// What is answered of what the step at an address did, and printed.
fn answer(code: &CodeList, at: usize, did: Result<Did, Stopped>, printed: Option<Val>) -> Outcome
    requires { IsMark code.now.ops at }
    ensures { (line : ℕ) → slice_get code.now.ops at ≡ Some (i.Mark line) →
        result ≡ answer did line printed }
{
    match did {
        Ok(Did::Goes) => match printed {
            Some(v) => Outcome::Printed(v),
            None => Outcome::Running,
        },
        Ok(Did::Ends) => match printed {
            Some(v) => Outcome::Printed(v),
            None => Outcome::Done,
        },
        Err(Stopped::Trap(kind)) => Outcome::Trap {
            kind,
            line: line_at(code, at),
        },
        Err(Stopped::InputFault) => Outcome::InputFault,
        Err(Stopped::Memory) => Outcome::Memory,
    }
}
