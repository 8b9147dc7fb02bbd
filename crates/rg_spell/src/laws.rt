//! The law of the spelling of parts, as the contract of a function that does nothing
//! (docs/architecture.md, "Modules").

ghost use Rattle.rg_spell.specs.Laws.{AreReadBack};

/// What is read was spelled, and what is spelled is read, whatever stands behind it; an instruction
/// is the one that its number and its operands make.
pub fn parts_are_read_back()
    ensures { AreReadBack }
{}
