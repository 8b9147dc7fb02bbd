//! The law of numbered bodies, as the contract of a function that does nothing
//! (docs/architecture.md, "Modules").

ghost use Rattle.rg_numbered.specs.Laws.{AcceptedAreNumbered};

/// Each body of an accepted program with the names of a module is its block with numbers.
pub fn accepted_are_numbered()
    ensures { AcceptedAreNumbered }
{}
