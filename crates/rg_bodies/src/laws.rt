//! The laws of raised bodies, as contracts of functions that do nothing (docs/architecture.md,
//! "Modules").

ghost use Rattle.rg_bodies.specs.Standing.{BodiesAreTold, BodiesStandOnce, StandingBodiesAreTold};

/// What raising tells are the bodies that have the code, or none that are so deep at most have it.
pub fn bodies_are_told()
    ensures { BodiesAreTold }
{}

/// The bodies that have the code are told.
pub fn standing_bodies_are_told()
    ensures { StandingBodiesAreTold }
{}

/// At most one list of bodies has a code.
pub fn bodies_stand_once()
    ensures { BodiesStandOnce }
{}
