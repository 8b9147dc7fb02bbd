//! The laws of the stack machine, each as the contract of a function that does nothing
//! (docs/architecture.md, "The stack machine").

ghost use Rattle.rg_stack.specs.Laws.{OpeningShows, StepShows, RunShows, StepsOrderly, StepsAsk};
ghost use Rattle.rg_stack.specs.Laws.{StepsDue, StepsGiven};

/// The opening machine of an accepted program shows its opening state.
pub fn opening_shows()
    ensures { OpeningShows }
{}

/// From a machine that shows a state that fits, a step traps where the plain step does, at the
/// same line, and else leaves a machine that shows the next state, done where nothing is left.
pub fn step_shows()
    ensures { StepShows }
{}

/// So a run of the code of an accepted program makes as many steps, prints the same and ends in
/// the same way as one of the machine that never frees, and shows its state.
pub fn run_shows()
    ensures { RunShows }
{}

/// Where a step begins, all in it that can be refused stands in front of what changes the machine.
pub fn steps_orderly()
    ensures { StepsOrderly }
{}

/// Where a step begins, its code asks for the input exactly where the first thing to do does.
pub fn steps_ask()
    ensures { StepsAsk }
{}

/// Where a step begins, its code may collect exactly where the first thing to do may: where that is
/// `collect`, or makes an object by `new C` or `new C [e]`.
pub fn steps_due()
    ensures { StepsDue }
{}

/// Where a step begins, no instruction of it lacks what it needs of a machine that frees: what is
/// written may be written, and each closed region keeps one owner until it is given up with it.
pub fn steps_given()
    ensures { StepsGiven }
{}
