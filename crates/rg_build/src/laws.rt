//! The laws of the module of a program, as contracts of functions that do nothing
//! (docs/architecture.md, "Modules").

ghost use Rattle.rg_build.specs.Laws.{CodeFollows, EachMarkHasAMap, MapsAreOfEnvironments};

/// The code of a program has as many marks as the program has maps.
pub fn each_mark_has_a_map()
    ensures { EachMarkHasAMap }
{}

/// A mark's map is that of the environment in front of its point.
pub fn maps_are_of_environments()
    ensures { MapsAreOfEnvironments }
{}

/// Openings, entries and numbers of slots follow from classes, heads and instructions.
pub fn code_follows()
    ensures { CodeFollows }
{}
