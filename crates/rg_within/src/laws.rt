//! The laws that what a source spells passes no limit, as contracts of functions that do nothing
//! (docs/language.md, "Limits").

ghost use Rattle.rg_within.specs.Laws.{SpeltIsWithinLimits, SpeltOpensFew};

/// A program that some source spells passes no limit of a source.
pub fn spelt_is_within_limits()
    ensures { SpeltIsWithinLimits }
{
    rg_check::spelt_has_few_names();
}

/// Its names have no brackets, and its parts need no more than may be open together.
pub fn spelt_opens_few()
    ensures { SpeltOpensFew }
{}
