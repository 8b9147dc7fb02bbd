//! Why a schedule wasn't run to its end (docs/architecture.md, "Worlds").

ghost use Rattle.std.specs.Prelude.{◌≡◌};

use rg_base::Memory;
use rg_input::InputFault;

/// Why a schedule wasn't run to its end.
#[derive(Clone, Copy)]
pub enum SchedStop {
    /// the item with this place, counted from 1, is no number, or no behaviour's number
    Bad { item: u64 },
    /// more numbers than a schedule may have
    Spent,
    /// the source of the schedule failed
    InputFault,
    /// no memory was found
    Memory,
}

impl From<Memory> for SchedStop {
    ghost use Rattle.rg_sched.specs.declared.stop.SchedStop.{SchedStop};

    ghost from_gives = { λ _ why. why ≡ SchedStop.Memory };

    fn from(_memory: Memory) -> SchedStop {
        SchedStop::Memory
    }
}

impl From<InputFault> for SchedStop {
    ghost use Rattle.rg_sched.specs.declared.stop.SchedStop.{SchedStop};

    ghost from_gives = { λ _ why. why ≡ SchedStop.InputFault };

    fn from(_fault: InputFault) -> SchedStop {
        SchedStop::InputFault
    }
}
