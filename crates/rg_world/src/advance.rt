//! One step of a running behaviour (docs/architecture.md, "Worlds").

ghost use Rattle.std.specs.Prelude.{◌≡◌, ◌<◌, ℕ, suc, Some, length, option_map, IfOk, OnOk};
ghost use Rattle.rg_tree.specs.Rows.RowTrees.{classes_of, program_of};
ghost use Rattle.rg_rules.specs.Types.{fields_of};
ghost use Rattle.rg_rules.specs.Runs.{Ran, Running as going};
ghost use Rattle.rg_sched_atomic.specs.Events.{one_more};
ghost use Rattle.rg_first.specs.First.{IsFirst, IsOfBehaviour};
ghost use Rattle.rg_step.specs.Pacers.{SameTuned, both};
ghost use Rattle.rg_world.specs.Asking.{AskedMore, step_asks};
ghost use Rattle.rg_world.specs.Standing.{StandsAs, IsProgress};
ghost use Rattle.rg_world.specs.Inner.Steps.{CameTo, Leaves};

use crate::back::contents_back;
use crate::empty_input::EmptyInput;
use crate::progress::{Progress, Standing};
use rg_base::{Memory, Outcome, Val};
use rg_code::CodeList;
use rg_names::Book;
use rg_pace::Pacer;
use rg_slots::Slot;
use std::alloc::Global;

/// What a step of a behaviour came to.
pub(crate) enum Stepped {
    /// it goes on
    On,
    /// it goes on, and printed a value
    Printed(Val),
    /// it has ended, and leaves contents to its cowns
    Ended(Vec<Slot>),
}

// Makes a step of a running behaviour of a class, and says what it came to.
fn step_on(
    standing: &mut Standing,
    alloc: Global,
    book: &Book<'_>,
    class: u32,
    code: &CodeList,
    input: &mut EmptyInput,
    count: &mut dyn Pacer,
    trace: &mut dyn Pacer,
) -> Result<Stepped, Memory>
    requires class { class < length (classes_of book.now.program) }
    requires runs { let t = program_of book.now.program in (r : Ran)
        × StandsAs t code.now (Some r) standing.old × (r.ending ≡ going)
        × IsFirst t.classes class r.state × IsOfBehaviour t class (one_more t.classes r).state }
    ensures came { let t = program_of book.now.program in (r : Ran) →
        StandsAs t code.now (Some r) standing.old → r.ending ≡ going →
        IsFirst t.classes class r.state → IsOfBehaviour t class (one_more t.classes r).state →
        IfOk result (CameTo t code.now r.state.output (fields_of t.classes class)
        (one_more t.classes r) standing.new) }
    ensures asks { let t = program_of book.now.program in (r : Ran) →
        StandsAs t code.now (Some r) standing.old →
        OnOk result (AskedMore (step_asks t.classes r.state)
        (both (tally count.old) (tally trace.old)) (both (tally count.new) (tally trace.new))) }
    ensures tuned { SameTuned (both (tally count.old) (tally trace.old))
        (both (tally count.new) (tally trace.new)) }
{
    let Standing::Running(stepper) = standing else {
        unreachable!();
    };
    let outcome = input.step(stepper, code, count, trace);
    match outcome {
        Outcome::Running => Ok(Stepped::On),
        Outcome::Printed(v) => Ok(Stepped::Printed(v)),
        Outcome::Done => {
            let back = contents_back(alloc, book, class, stepper)?;
            *standing = Standing::Done;
            Ok(Stepped::Ended(back))
        }
        Outcome::Trap { kind, line } => {
            *standing = Standing::Trap { kind, line };
            Ok(Stepped::Ended(Vec::new(alloc)))
        }
        Outcome::InputFault => unreachable!(),
        Outcome::Memory => Err(Memory),
    }
}

/// Makes a step of a running behaviour of a class. Answers what it leaves to its cowns, in order,
/// if it has ended; behind a trap that is nothing.
pub(crate) fn advance(
    progress: &mut Progress,
    alloc: Global,
    book: &Book<'_>,
    class: u32,
    code: &CodeList,
    input: &mut EmptyInput,
    count: &mut dyn Pacer,
    trace: &mut dyn Pacer,
) -> Result<Option<Vec<Slot>>, Memory>
    requires class { class < length (classes_of book.now.program) }
    requires runs { let t = program_of book.now.program in (r : Ran)
        × StandsAs t code.now (Some r) progress.old.standing × (r.ending ≡ going)
        × IsFirst t.classes class r.state × IsOfBehaviour t class (one_more t.classes r).state }
    ensures goes { let t = program_of book.now.program in (r : Ran) (n : ℕ) →
        IsProgress t code.now (Some r) n progress.old → r.ending ≡ going →
        IsFirst t.classes class r.state → IsOfBehaviour t class (one_more t.classes r).state →
        IfOk result (λ left. Leaves (fields_of t.classes class) (one_more t.classes r)
        (option_map (λ v. v.items) left)
        × IsProgress t code.now (Some (one_more t.classes r)) (suc n) progress.new) }
    ensures asks { let t = program_of book.now.program in (r : Ran) →
        StandsAs t code.now (Some r) progress.old.standing →
        OnOk result (AskedMore (step_asks t.classes r.state)
        (both (tally count.old) (tally trace.old)) (both (tally count.new) (tally trace.new))) }
    ensures tuned { SameTuned (both (tally count.old) (tally trace.old))
        (both (tally count.new) (tally trace.new)) }
{
    if progress.turns == u64::MAX {
        return Err(Memory);
    }
    let stepped = step_on(
        &mut progress.standing,
        alloc,
        book,
        class,
        code,
        input,
        count,
        trace,
    )?;
    progress.turns += 1;
    match stepped {
        Stepped::On => Ok(None),
        Stepped::Printed(v) => {
            progress.printed.push(v)?;
            Ok(None)
        }
        Stepped::Ended(back) => Ok(Some(back)),
    }
}
