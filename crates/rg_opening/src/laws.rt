//! The laws of what a behaviour begins with and gives back, as contracts of functions that do
//! nothing (docs/architecture.md, "How a behaviour begins").

ghost use Rattle.rg_opening.specs.Laws.{OpeningFits, ContentGoesBack};

/// The state in which a behaviour of an accepted program begins fits the program.
pub fn behaviour_opening_fits()
    ensures { OpeningFits }
{}

/// What an `iso` field of an object of a region leads to is a content that the field may own.
pub fn content_goes_back()
    ensures { ContentGoesBack }
{}
