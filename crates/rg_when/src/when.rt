//! Runs the behaviours of a plan by the schedule on the input (docs/promises.md, "The headline").

ghost use Rattle.std.specs.Prelude.{◌<◌, length, IfSome};
ghost use Rattle.rg_tree.specs.Rows.RowTrees.{program_of};
ghost use Rattle.rg_contents.specs.Read.{IsReadFor};
ghost use Rattle.rg_sched.specs.Running.{SameTuned, both};
ghost use Rattle.rg_words.specs.Answers.{CausedBeside, ForInput};
ghost use Rattle.rg_when.specs.Scheduled.{DoesSchedule, SettlesSchedule};

use crate::stops::status_of;
use crate::telling::put_behind;
use rg_check::Accepted;
use rg_cown::Cargo;
use rg_input::Numbers;
use rg_io::{Sink, Source};
use rg_lower::lower;
use rg_pace::Pacer;
use rg_plan::Plan;
use rg_sched::run_counted;
use rg_words::Status;
use std::alloc::Global;

/// Runs the behaviours of a plan by the schedule on the input, where its cowns begin with these
/// contents, of which those count whose line names an image. Gives the text of the world behind it
/// to the output, or, where the content of a cown is kept, the image of what that cown has there. It
/// asks the pacers, and tunes none.
pub fn run_planned<I: Source, O: Sink>(
    alloc: Global,
    accepted: &Accepted,
    plan: &Plan,
    images: Vec<Cargo>,
    keep: Option<u32>,
    input: &mut I,
    out: &mut O,
    count: &mut dyn Pacer,
    trace: &mut dyn Pacer,
) -> Status
    requires read { IsReadFor (program_of accepted.now.program) plan.now images.items }
    requires keep { IfSome keep (λ k. k < length plan.now.cowns) }
    ensures settles { SettlesSchedule (program_of accepted.now.program) plan.now images.items keep
        (I.left input.old) result (O.taken out.old) (O.taken out.new) }
    ensures does { ForInput (I.left input.old) (λ bytes.
        DoesSchedule (program_of accepted.now.program) plan.now images.items keep bytes result
        (O.taken out.old) (O.taken out.new)
        (both (tally count.old) (tally trace.old)) (both (tally count.new) (tally trace.new))) }
    ensures caused { CausedBeside result (I.faults input.old) (I.faults input.new)
        (O.faults out.old) (O.faults out.new) }
    ensures tuned { SameTuned (both (tally count.old) (tally trace.old))
        (both (tally count.new) (tally trace.new)) }
{
    let Ok(code) = lower(alloc, accepted) else {
        return Status::Memory;
    };
    let mut numbers = Numbers::new();
    let ran = run_counted(
        alloc,
        accepted,
        &code,
        plan,
        images,
        &mut numbers,
        input,
        count,
        trace,
    );
    match ran {
        Ok(behind) => put_behind(alloc, plan, &behind, keep, out),
        Err(stop) => status_of(stop),
    }
}
