//! A schedule that is run (docs/architecture.md, "Worlds").

ghost use Rattle.std.specs.Prelude.{◌≡◌, ◌≢◌, ◌≤◌, ◌<◌, length, Err, IfOk, IfSome, OnErr, OnOk};
ghost use Rattle.rg_io.specs.Content.{Rose};
ghost use Rattle.rg_input.specs.Numbers.{Follows, OnInput};
ghost use Rattle.rg_tree.specs.Rows.RowTrees.{program_of};
ghost use Rattle.rg_code.specs.Lowering.{Lowers};
ghost use Rattle.rg_contents.specs.Read.{IsReadFor};
ghost use Rattle.rg_world.specs.Worlds.{SameTuned, both};
ghost use Rattle.rg_sched.specs.Schedules.{behaviour_of, schedule_of};
ghost use Rattle.rg_sched.specs.Running.{Comes, CountComes};
ghost use Rattle.rg_sched.specs.Inner.Runs.{Names};

use crate::limits::SCHEDULE;
use crate::stop::SchedStop;
use rg_check::Accepted;
use rg_code::CodeList;
use rg_cown::Cargo;
use rg_input::{InputFault, NumberRefusal, Numbers};
use rg_io::Source;
use rg_pace::Pacer;
use rg_plan::Plan;
use rg_world::World;
use std::alloc::Global;

/// A world behind a schedule.
#[derive(Drop)]
pub struct Behind {
    /// the world
    pub world: World,
    /// how many numbers the schedule had
    pub taken: u64,
}

/// Makes the events of a schedule, which is the numbers on the input to its end, at most so many as
/// `SCHEDULE`, and counts them. For each cown there is a content in `images`, of which only those
/// count whose line names an image.
pub fn run_counted<S: Source>(
    alloc: Global,
    accepted: &Accepted,
    code: &CodeList,
    plan: &Plan,
    images: Vec<Cargo>,
    schedule: &mut Numbers,
    source: &mut S,
    count: &mut dyn Pacer,
    trace: &mut dyn Pacer,
) -> Result<Behind, SchedStop>
    requires lowers { Lowers (program_of accepted.now.program) code.now }
    requires read { IsReadFor (program_of accepted.now.program) plan.now images.items }
    requires follows { Follows schedule.old (S.left source.old) }
    ensures run { OnInput schedule.old schedule.new (S.left source.old) (S.left source.new)
        (λ before after. CountComes (program_of accepted.now.program) code.now plan.now
        images.items (schedule_of (length plan.now.behaviours) before) result
        (both (tally count.old) (tally trace.old)) (both (tally count.new) (tally trace.new))) }
    ensures follows { Follows schedule.new (S.left source.new) }
    ensures fault { result ≡ Err SchedStop.InputFault →
        Rose (S.faults source.old) (S.faults source.new) }
    ensures quiet { result ≢ Err SchedStop.InputFault →
        S.faults source.new ≡ S.faults source.old }
    ensures never_falls { S.faults source.old ≤ S.faults source.new }
    ensures tuned { SameTuned (both (tally count.old) (tally trace.old))
        (both (tally count.new) (tally trace.new)) }
{
    let mut world = World::begin(alloc, accepted, plan, images)?;
    let mut taken: u64 = 0;
    while schedule.more(source)? {
        if taken >= SCHEDULE {
            return Err(SchedStop::Spent);
        }
        taken += 1;
        let Some(i) = next_behaviour(plan, schedule, source)? else {
            return Err(SchedStop::Bad { item: taken });
        };
        world = world.event(alloc, accepted, code, plan, i, count, trace)?;
    }
    Ok(Behind { world, taken })
}

/// The world behind a schedule.
pub fn run<S: Source>(
    alloc: Global,
    accepted: &Accepted,
    code: &CodeList,
    plan: &Plan,
    images: Vec<Cargo>,
    schedule: &mut Numbers,
    source: &mut S,
    count: &mut dyn Pacer,
    trace: &mut dyn Pacer,
) -> Result<World, SchedStop>
    requires lowers { Lowers (program_of accepted.now.program) code.now }
    requires read { IsReadFor (program_of accepted.now.program) plan.now images.items }
    requires follows { Follows schedule.old (S.left source.old) }
    ensures run { OnInput schedule.old schedule.new (S.left source.old) (S.left source.new)
        (λ before after. Comes (program_of accepted.now.program) code.now plan.now
        images.items (schedule_of (length plan.now.behaviours) before) result
        (both (tally count.old) (tally trace.old)) (both (tally count.new) (tally trace.new))) }
    ensures follows { Follows schedule.new (S.left source.new) }
    ensures fault { result ≡ Err SchedStop.InputFault →
        Rose (S.faults source.old) (S.faults source.new) }
    ensures quiet { result ≢ Err SchedStop.InputFault →
        S.faults source.new ≡ S.faults source.old }
    ensures never_falls { S.faults source.old ≤ S.faults source.new }
    ensures tuned { SameTuned (both (tally count.old) (tally trace.old))
        (both (tally count.new) (tally trace.new)) }
{
    let ran = run_counted(
        alloc, accepted, code, plan, images, schedule, source, count, trace,
    );
    match ran {
        Ok(behind) => Ok(behind.world),
        Err(stop) => Err(stop),
    }
}

// The behaviour that the next number names, which is taken; None where that is no number, or no
// behaviour's.
fn next_behaviour<S: Source>(
    plan: &Plan,
    schedule: &mut Numbers,
    source: &mut S,
) -> Result<Option<u32>, InputFault>
    requires { Follows schedule.old (S.left source.old) }
    ensures names { OnInput schedule.old schedule.new (S.left source.old) (S.left source.new)
        (Names (length plan.now.behaviours) result) }
    ensures below { IfOk result (λ o. IfSome o (λ i. i < length plan.now.behaviours)) }
    ensures follows { Follows schedule.new (S.left source.new) }
    ensures fault { OnErr result (Rose (S.faults source.old) (S.faults source.new)) }
    ensures quiet { OnOk result (S.faults source.new ≡ S.faults source.old) }
    ensures never_falls { S.faults source.old ≤ S.faults source.new }
{
    match schedule.next(source) {
        Ok(z) => Ok(behaviour_of(plan.behaviours(), z)),
        Err(NumberRefusal::Input) => Ok(None),
        Err(NumberRefusal::End) => Ok(None),
        Err(NumberRefusal::InputFault) => Err(InputFault),
    }
}

// The behaviour that a number names among so many.
fn behaviour_of(many: u32, z: i64) -> Option<u32>
    ensures is { result ≡ behaviour_of many z }
    ensures below { IfSome result (λ i. i < many) }
{
    if z < 0 {
        return None;
    }
    if z >= i64::from(many) {
        return None;
    }
    Some(z as u32)
}
