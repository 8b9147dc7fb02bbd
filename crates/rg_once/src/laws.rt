//! The laws that a step and a run are determined, as contracts of functions that do nothing
//! (docs/architecture.md, "The stepper").

ghost use Rattle.rg_once.specs.Once.{RunsOnce, StepsOnce};

/// Two answers to a step agree, from standings that hold the same of one state: in what they say, in
/// what is left of the input and in what the instructions leave held. Where both tell of a
/// collection, they agree in all that is told of it and in what is held behind it.
pub fn steps_once()
    ensures { StepsOnce }
{}

/// Two runs of a program on the same bytes of an input, of as many steps each, in which the same
/// steps tell of a collection, hold the same and have told the same collections, and they leave as
/// much of the input.
pub fn runs_once()
    ensures { RunsOnce }
{}
