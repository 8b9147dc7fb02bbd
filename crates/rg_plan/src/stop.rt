//! The fault of a plan (docs/architecture.md, "Plans").

ghost use Rattle.std.specs.Prelude.{◌≡◌};
ghost use Rattle.rg_base.specs.declared.fault.Code.TheVariants.{Plan};
ghost use Rattle.rg_base.specs.declared.fault.Stop.TheVariants.{Fault as Stopped};

use rg_base::{Code, Fault, Stop};

/// `E93 plan` at a line.
pub(crate) fn bad(line: u64) -> Stop
    ensures { result ≡ Stopped (record { code = Plan; line = line }) }
{
    Stop::Fault(Fault {
        code: Code::Plan,
        line,
    })
}
