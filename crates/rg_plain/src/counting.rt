//! What a run makes of the answer of a step (docs/language.md, "Steps").

ghost use Rattle.std.specs.Prelude.{◌+◌, ◌<◌, ◌^◌, ◌≡◌, ◌≤◌, Some};
ghost use Rattle.rg_io.specs.Content.{Rose};
ghost use Rattle.rg_plain.specs.Inner.Counts.{CountIs};

use crate::line::put_value;
use rg_base::{Ended, Outcome};
use rg_io::{Failed, Sink};

/// Counts a whole step, and gives its line to `out`: how the run ends, if it does.
pub(crate) fn count<O: Sink>(outcome: Outcome, steps: &mut u64, out: &mut O) -> Option<Ended>
    requires room { steps.old + 1 < 2 ^ 64 }
    ensures is { CountIs outcome steps.old steps.new (O.taken out.old) (O.taken out.new) result }
    ensures input_fault { result ≡ Some Ended.InputFault → outcome ≡ Outcome.InputFault }
    ensures output_fault { result ≡ Some Ended.OutputFault →
        Rose (O.faults out.old) (O.faults out.new) }
    ensures never_falls { O.faults out.old ≤ O.faults out.new }
{
    match outcome {
        Outcome::Running => {
            *steps += 1;
            None
        }
        Outcome::Printed(v) => {
            *steps += 1;
            match put_value(out, v) {
                Ok(()) => None,
                Err(Failed) => Some(Ended::OutputFault),
            }
        }
        Outcome::Done => {
            *steps += 1;
            Some(Ended::Done)
        }
        Outcome::Trap { kind, line } => Some(Ended::Trap { kind, line }),
        Outcome::InputFault => Some(Ended::InputFault),
        Outcome::Memory => Some(Ended::Memory),
    }
}
