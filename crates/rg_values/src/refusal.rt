//! Why a step was refused, and what it answers then (docs/language.md, "Steps").

ghost use Rattle.std.specs.Prelude.{◌≡◌, ◌≢◌};
ghost use Rattle.rg_values.specs.Steps.{ended_by, outcome_of, printed_of};
ghost use Rattle.rg_values.specs.Printing.{PrintsOrStays};

use rg_base::{Memory, Outcome, Trap, Val};
use std::alloc::AllocError;

/// Why a step was refused.
#[derive(Clone, Copy)]
pub enum Refusal {
    Trap(Trap),
    Memory,
}

impl From<Trap> for Refusal {
    ghost use Rattle.rg_values.specs.declared.refusal.Refusal.{Refusal};

    ghost from_gives = { λ kind r. r ≡ Refusal.Trap kind };

    fn from(kind: Trap) -> Refusal {
        Refusal::Trap(kind)
    }
}

impl From<Memory> for Refusal {
    ghost use Rattle.rg_values.specs.declared.refusal.Refusal.{Refusal};

    ghost from_gives = { λ _ r. r ≡ Refusal.Memory };

    fn from(_memory: Memory) -> Refusal {
        Refusal::Memory
    }
}

impl From<AllocError> for Refusal {
    ghost use Rattle.rg_values.specs.declared.refusal.Refusal.{Refusal};

    ghost from_gives = { λ _ r. r ≡ Refusal.Memory };

    fn from(_error: AllocError) -> Refusal {
        Refusal::Memory
    }
}

/// How a step ends that was refused.
pub fn ended(refused: Refusal, line: u64) -> Outcome
    ensures is { result ≡ ended_by refused line }
    ensures asks_nothing { result ≢ Outcome.InputFault }
    ensures prints { PrintsOrStays result }
{
    match refused {
        Refusal::Trap(kind) => Outcome::Trap { kind, line },
        Refusal::Memory => Outcome::Memory,
    }
}

/// What a step answers that prints nothing.
pub fn outcome(done: Result<(), Refusal>, line: u64) -> Outcome
    ensures is { result ≡ outcome_of done line }
    ensures asks_nothing { result ≢ Outcome.InputFault }
{
    match done {
        Ok(()) => Outcome::Running,
        Err(refused) => ended(refused, line),
    }
}

/// What a step answers that prints a value.
pub fn printed(done: Result<Val, Refusal>, line: u64) -> Outcome
    ensures is { result ≡ printed_of done line }
    ensures asks_nothing { result ≢ Outcome.InputFault }
    ensures prints { PrintsOrStays result }
{
    match done {
        Ok(v) => Outcome::Printed(v),
        Err(refused) => ended(refused, line),
    }
}
