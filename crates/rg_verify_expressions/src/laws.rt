//! The laws of raised expressions and blocks, as contracts of functions that do nothing
//! (docs/architecture.md, "Modules").

ghost use Rattle.rg_verify_expressions.specs.Blocks.{RaisedBlocksStand};
ghost use Rattle.rg_verify_expressions.specs.Found.{BlocksHaveTheirCode};
ghost use Rattle.rg_verify_expressions.specs.Raises.{StandOnce, HaveTheirCode};
ghost use Rattle.rg_verify_expressions.specs.Standing.{BlocksAreTold, BlocksStandOnce, StandingBlocksAreTold};

/// Instructions begin with the code of at most one list of expressions, objects and places.
pub fn expressions_stand_once()
    ensures { StandOnce }
{}

/// With names that are found, raised expressions have the code that they were raised from.
pub fn raised_have_their_code()
    ensures { HaveTheirCode }
{}

/// With names that are found, blocks of statements have the code that they have with numbers.
pub fn blocks_have_their_code()
    ensures { BlocksHaveTheirCode }
{}

/// The block that is raised at an address has the code that stands there.
pub fn raised_blocks_stand()
    ensures { RaisedBlocksStand }
{}

/// Each block that stands at an address is the one that is raised there.
pub fn standing_blocks_are_told()
    ensures { StandingBlocksAreTold }
{}

/// At most one block stands at an address.
pub fn blocks_stand_once()
    ensures { BlocksStandOnce }
{}

/// What raising tells at an address is the block that stands there, or none does.
pub fn blocks_are_told()
    ensures { BlocksAreTold }
{}
