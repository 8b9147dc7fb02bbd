//! The laws of the grammar, each as the contract of a function that does nothing
//! (docs/language.md, "Grammar").

ghost use Rattle.rg_tree.specs.Laws.{SpeltIsNotStuck, SpellsOne, StuckOnce};

/// The tokens of a source spell at most one tree.
pub fn at_most_one_tree()
    ensures { SpellsOne }
{}

/// Tokens that spell a tree are nowhere stuck.
pub fn spelt_is_not_stuck()
    ensures { SpeltIsNotStuck }
{}

/// Tokens are stuck at one place at most, with one code.
pub fn stuck_once()
    ensures { StuckOnce }
{}
