//! Why a step doesn't come to its end (docs/architecture.md, "The stepper").

ghost use Rattle.std.specs.Prelude.{◌≡◌};

use rg_base::{Memory, Trap};
use rg_input::{InputFault, NumberRefusal};

/// Why a step doesn't come to its end.
#[derive(Clone, Copy)]
pub(crate) enum Stopped {
    /// it traps
    Trap(Trap),
    /// the source of input numbers failed
    InputFault,
    /// no memory was found
    Memory,
}

impl From<NumberRefusal> for Stopped {
    ghost use Rattle.rg_step.specs.Inner.Refusals.{stopped_by};

    ghost from_gives = { λ refusal why. why ≡ stopped_by refusal };

    fn from(refusal: NumberRefusal) -> Stopped {
        match refusal {
            NumberRefusal::End => Stopped::Trap(Trap::End),
            NumberRefusal::Input => Stopped::Trap(Trap::Input),
            NumberRefusal::InputFault => Stopped::InputFault,
        }
    }
}

impl From<InputFault> for Stopped {
    ghost use Rattle.rg_step.specs.declared.stopped.Stopped.{Stopped};

    ghost from_gives = { λ _ why. why ≡ Stopped.InputFault };

    fn from(_fault: InputFault) -> Stopped {
        Stopped::InputFault
    }
}

impl From<Memory> for Stopped {
    ghost use Rattle.rg_step.specs.declared.stopped.Stopped.{Stopped};

    ghost from_gives = { λ _ why. why ≡ Stopped.Memory };

    fn from(_memory: Memory) -> Stopped {
        Stopped::Memory
    }
}
