//! What a run makes of a step: how it is counted, the lines that are given, and how the run ends
//! where it does (docs/language.md, "Steps").

ghost use Rattle.std.specs.Prelude.{◌≡◌, ◌⊎◌, ◌+◌, ◌-◌, ◌^◌, ◌<◌, ◌≤◌, ℕ, List, Option, Err};
ghost use Rattle.std.specs.Prelude.{false, length, take, true};
ghost use Rattle.rg_io.specs.Content.{Rose};
ghost use Rattle.rg_run.specs.Inner.{Gives, IsLent, behind, ended_by};
ghost use Rattle.rg_run.specs.Reports.{Reports};

use crate::task::{Sinks, Task};
use crate::telling::tell;
use rg_base::{Ended, Event, Outcome};
use rg_io::{Failed, Sink};
use rg_plain::put_value;

/// The whole steps behind one more; one that was refused isn't counted.
pub(crate) fn counted(steps: u64, outcome: Outcome) -> u64
    requires room { steps < 2 ^ 64 - 1 }
    ensures behind { result ≡ behind steps outcome }
    ensures most { result ≤ steps + 1 }
{
    match outcome {
        Outcome::Running | Outcome::Printed(_) | Outcome::Done => steps + 1,
        Outcome::Trap { .. } | Outcome::InputFault | Outcome::Memory => steps,
    }
}

/// Whether nothing is given of a step: it went on and printed nothing, and no report is asked for.
#[inline(always)]
fn is_quiet(task: &Task<'_>, outcome: Outcome) -> bool
    ensures { result ≡ true → (outcome ≡ Outcome.Running) × (task.now.report ≡ false) }
{
    match outcome {
        Outcome::Running => !task.report,
        _ => false,
    }
}

/// Gives the lines of a step: of the value that it printed, and of its collection, the one behind
/// the first ones, so many. An `Err` is the end of the run.
#[inline(always)]
pub(crate) fn give<O: Sink, R: Sink>(
    task: &Task<'_>,
    sinks: &mut Sinks<'_, O, R>,
    events: &[Event],
    told: usize,
    outcome: Outcome,
) -> Result<(), Ended>
    requires few { length events.now ≤ behind told outcome }
    ensures gives { Gives outcome result
        (O.taken sinks.old.out.now) (O.taken sinks.new.out.now) }
    ensures reports { (first : Option (List ℕ)) →
        Reports task.now.report Ended.Spent (take told events.now) first
        (R.taken sinks.old.notes.now) →
        Reports task.now.report (ended_by result) events.now first
        (R.taken sinks.new.notes.now) }
    ensures failed { result ≡ Err Ended.OutputFault →
        Rose (O.faults sinks.old.out.now) (O.faults sinks.new.out.now)
        ⊎ Rose (R.faults sinks.old.notes.now) (R.faults sinks.new.notes.now) }
    ensures sink_never_falls { O.faults sinks.old.out.now ≤ O.faults sinks.new.out.now }
    ensures notes_never_fall { R.faults sinks.old.notes.now ≤ R.faults sinks.new.notes.now }
    ensures lent { IsLent sinks.old sinks.new }
{
    if is_quiet(task, outcome) {
        return Ok(());
    }
    match outcome {
        Outcome::Running => tell(task, events, told, sinks.notes),
        Outcome::Printed(value) => match put_value(sinks.out, value) {
            Ok(()) => tell(task, events, told, sinks.notes),
            Err(Failed) => Err(Ended::OutputFault),
        },
        Outcome::Done => match tell(task, events, told, sinks.notes) {
            Ok(()) => Err(Ended::Done),
            Err(ended) => Err(ended),
        },
        Outcome::Trap { kind, line } => Err(Ended::Trap { kind, line }),
        Outcome::InputFault => Err(Ended::InputFault),
        Outcome::Memory => Err(Ended::Memory),
    }
}
