//! The laws of the machine that frees, each as the contract of a function that does nothing
//! (docs/architecture.md, "The machine that frees").

ghost use Rattle.rg_held.specs.Laws.{FreeGivenSame, InstructionsSame, NeedsSame, RunsSame};
ghost use Rattle.rg_held.specs.Laws.{StepsFree, StepsSame, WalksSame};
ghost use Rattle.rg_held.specs.Gather.{GathersFit};

/// What an instruction needs over the growing store, it has in the machine that frees too: what
/// it looks at is held, and no more places lead into a region.
pub fn needs_same()
    ensures { NeedsSame }
{}

/// Each instruction that is given what it needs does what it does over the growing store, and
/// leaves the same held, but for what it gives up.
pub fn instructions_same()
    ensures { InstructionsSame }
{}

/// So does a walk in which each instruction is given what it needs, and in which nothing is
/// refused behind a change.
pub fn walks_same()
    ensures { WalksSame }
{}

/// So does a step of an accepted program from a state that fits: both machines go on, both end, or
/// both trap, at the same line, and what is held behind it is the same in both.
pub fn steps_same()
    ensures { StepsSame }
{}

/// In such a step the machine that frees, too, has in front of each instruction what it needs.
pub fn free_given_same()
    ensures { FreeGivenSame }
{}

/// And so does each run of an accepted program: as many steps, the same output and the same ending.
pub fn runs_same()
    ensures { RunsSame }
{}

/// No step frees by a manager's rule: what was held in front of it and isn't held behind it was a
/// temporary of a window that it ended, or lay in a region of which it left nothing.
pub fn steps_free()
    ensures { StepsFree }
{}

/// Where a step begins or has ended, a collection of the active region leaves the machine beside
/// the one over the growing store: what its window sees of the region is enough.
pub fn collections_same()
    ensures { GathersFit }
{}
