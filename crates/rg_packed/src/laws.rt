//! The laws of what is packed, as contracts of functions that do nothing
//! (docs/architecture.md, "Modules").

ghost use Rattle.rg_packed.specs.Laws.{OneModuleOneRun, PackedIsRaised, PackedSpellsModule};

/// The bytes of the module of an accepted program that a source spells spell that module.
pub fn packed_spells_module()
    ensures { PackedSpellsModule }
{
    rg_within::spelt_is_within_limits();
}

/// Some program raises it.
pub fn packed_is_raised()
    ensures { PackedIsRaised }
{
    rg_within::spelt_is_within_limits();
    rg_renamed::modules_are_raised();
}

/// Accepted programs of one module have the same runs, as far as a run tells.
pub fn one_module_one_run()
    ensures { OneModuleOneRun }
{
    rg_stack::run_shows();
}
