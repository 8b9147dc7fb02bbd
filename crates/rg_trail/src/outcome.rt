//! How a step ended (docs/embedding.md, "A trail").

ghost use Rattle.std.specs.Prelude.{◌≡◌};
ghost use Rattle.rg_trail.specs.Goes.{goes_on};

use crate::json::{number, value};
use rg_base::{ByteList, Memory, Outcome};
use rg_words::trap_words;

/// Whether the program goes on behind a step.
pub fn goes_on(outcome: Outcome) -> bool
    ensures { result ≡ goes_on outcome }
{
    match outcome {
        Outcome::Running | Outcome::Printed(_) => true,
        Outcome::Done | Outcome::Trap { .. } | Outcome::InputFault | Outcome::Memory => false,
    }
}

/// Whether a step was made.
pub fn is_made(outcome: Outcome) -> bool {
    match outcome {
        Outcome::Running | Outcome::Printed(_) | Outcome::Done => true,
        Outcome::Trap { .. } | Outcome::InputFault | Outcome::Memory => false,
    }
}

/// Appends what a step printed, or how it ended the program.
pub fn tell_outcome(out: &mut ByteList, outcome: Outcome) -> Result<(), Memory> {
    match outcome {
        Outcome::Running => Ok(()),
        Outcome::Printed(v) => {
            out.extend(b",\"print\":")?;
            value(out, v)
        }
        Outcome::Done => out.extend(b",\"end\":\"done\""),
        Outcome::Trap { kind, line } => {
            out.extend(b",\"end\":\"")?;
            out.extend(trap_words(kind))?;
            out.extend(b"\",\"in\":")?;
            number(out, line)
        }
        Outcome::InputFault => out.extend(b",\"end\":\"input fault\""),
        Outcome::Memory => out.extend(b",\"end\":\"out of memory\""),
    }
}
