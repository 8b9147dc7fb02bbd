//! Why a reading stops (docs/language.md, "Grammar").

ghost use Rattle.std.specs.Prelude.{◌≡◌};

use rg_base::{Code, Memory};

/// Why a reading stops: with a code at the token that stands next, or without memory.
#[derive(Clone, Copy, Debug, PartialEq, Eq)]
pub enum Halt {
    At(Code),
    Memory,
}

impl From<Memory> for Halt {
    ghost use Rattle.rg_reader.specs.declared.reader.halt.Halt.{Halt};

    ghost from_gives = { λ _ e. e ≡ Halt.Memory };

    fn from(_memory: Memory) -> Halt {
        Halt::Memory
    }
}

impl From<Code> for Halt {
    ghost use Rattle.rg_reader.specs.declared.reader.halt.Halt.{Halt};

    ghost from_gives = { λ code e. e ≡ Halt.At code };

    fn from(code: Code) -> Halt {
        Halt::At(code)
    }
}
