//! The laws of the program that a module tells, as contracts of functions that do nothing
//! (docs/architecture.md, "Modules").

ghost use Rattle.rg_told.specs.Bare.{ToldAreBare};
ghost use Rattle.rg_told.specs.Laws.{ToldAreBounded, ToldAreNumbered};

/// It has numbers for names.
pub fn told_are_numbered()
    ensures { ToldAreNumbered }
{}

/// It has no more parts than it may, and its blocks are no deeper than brackets may be.
pub fn told_are_bounded()
    ensures { ToldAreBounded }
{
    rg_bodies::bodies_are_told();
}

/// Its text has its own brackets alone, if no number is one that no source can write.
pub fn told_are_bare()
    ensures { ToldAreBare }
{}
