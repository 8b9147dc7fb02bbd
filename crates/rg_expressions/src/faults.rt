//! Faults with the line of their statement (docs/language.md, "Diagnostics").

ghost use Rattle.std.specs.Prelude.{◌≡◌};

use rg_base::{Code, Fault, Stop};

/// A fault at a line.
pub fn fault(code: Code, line: u64) -> Stop
    ensures { result ≡ Stop.Fault (record { code = code; line = line }) }
{
    Stop::Fault(Fault { code, line })
}
