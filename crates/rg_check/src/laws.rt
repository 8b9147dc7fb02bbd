//! The law by which what was parsed may be checked, as the contract of a function that does
//! nothing (docs/language.md, "Limits").

ghost use Rattle.rg_check.specs.Laws.{SpeltHasFewNames};

/// No body of a tree that some source spells has more names than a body may have.
pub fn spelt_has_few_names()
    ensures { SpeltHasFewNames }
{}
