//! The laws of blocks that fit and of marks that stand, as contracts of functions that do nothing
//! (docs/architecture.md, "Modules").

ghost use Rattle.rg_fitted.specs.Laws.{AcceptedAreFit, CalleesAreMethods, ModulesFit};
ghost use Rattle.rg_fitted.specs.Places.{MarksStand};

/// Each body of an accepted program with the names of a module fits where its maps stand.
pub fn accepted_are_fit()
    ensures { AcceptedAreFit }
{}

/// Each method that a class of a program has stands at its number among those of the program.
pub fn callees_are_methods()
    ensures { CalleesAreMethods }
{}

/// All bodies of an accepted program with a module's names stand in its module.
pub fn modules_fit()
    ensures { ModulesFit }
{
    rg_verify_expressions::blocks_have_their_code();
}

/// At the address of each mark of an accepted program a mark stands, with the map of its point.
pub fn marks_stand()
    ensures { MarksStand }
{
    rg_build::maps_are_of_environments();
}
