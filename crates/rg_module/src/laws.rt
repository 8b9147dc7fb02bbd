//! The law of the spelling, as the contract of a function that does nothing
//! (docs/architecture.md, "Modules").

ghost use Rattle.rg_module.specs.Laws.{SpellsOneModule};

/// Bytes spell at most one module.
pub fn at_most_one_module()
    ensures { SpellsOneModule }
{}
