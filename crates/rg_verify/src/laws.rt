//! The laws of programs that raise a module, as contracts of functions that do nothing
//! (docs/architecture.md, "Modules").

ghost use Rattle.rg_raised.specs.Told.{program_told};
ghost use Rattle.rg_verify.specs.Bare.{RaisedAreBare};
ghost use Rattle.rg_verify.specs.Told.{RaisedAlike, TellsRaised, ToldRaisesIfAny};

/// Each program that raises a module is told by it, but for lines that no mark has.
pub fn raised_are_told()
    ensures { TellsRaised program_told }
{
    rg_limits::limits_bound();
    rg_verify_expressions::blocks_have_their_code();
    rg_bodies::standing_bodies_are_told();
    rg_numbered::accepted_are_numbered();
    rg_fitted::modules_fit();
}

/// Programs that raise one module are the same but for lines that no mark has.
pub fn raised_alike()
    ensures { RaisedAlike }
{
    raised_are_told();
}

/// Where some program raises a module, the program that it tells does.
pub fn told_raises_if_any()
    ensures { ToldRaisesIfAny }
{
    raised_are_told();
    rg_told::told_are_numbered();
    rg_limits::limits_are_lineless();
    rg_lines::same_acceptance();
    rg_same::same_module();
}

/// Programs that raise a module have no brackets but those of their form.
pub fn raised_are_bare()
    ensures { RaisedAreBare }
{
    told_raises_if_any();
    raised_alike();
    rg_told::told_are_bare();
}
