//! The laws of programs with numbers for names, as contracts of functions that do nothing
//! (docs/architecture.md, "Modules").

ghost use Rattle.rg_renamed.specs.Laws.{ModulesAreRaised, RenamedAreAccepted, RenamedAreNumbered};
ghost use Rattle.rg_renamed.specs.Laws.{RenamedAreWithinLimits, SameModule};

/// An accepted program has numbers for names then.
pub fn renamed_is_numbered()
    ensures { RenamedAreNumbered }
{}

/// Its module is the same.
pub fn same_module()
    ensures { SameModule }
{
    rg_verify_expressions::blocks_have_their_code();
}

/// It is accepted.
pub fn renamed_is_accepted()
    ensures { RenamedAreAccepted }
{}

/// It passes no limit where the program passes none.
pub fn renamed_is_within_limits()
    ensures { RenamedAreWithinLimits }
{}

/// So it raises the module of the program.
pub fn modules_are_raised()
    ensures { ModulesAreRaised }
{
    renamed_is_numbered();
    same_module();
    renamed_is_accepted();
    renamed_is_within_limits();
}
